// The words of a script.

// What the first word of a line asks for: a tree, up to `Mixed`, metres, up to `Rise`, and other
// bytes in hand, up to `Pad`, as `material` says; then what the program `cases` does.
#[derive(Clone, Copy)]
pub enum Word {
    Parents,
    Grow,
    Branches,
    Mixed,
    Metres,
    Rise,
    Hold,
    Flip,
    Reseal,
    Pad,
    Encode,
    Image,
    Survey,
    Join,
    Text,
    Decode,
    Unseal,
    Untext,
    Distances,
    Ask,
    List,
    Check,
    Nodes,
    Split,
    View,
    Remark,
}

// The first word of the line, which goes up to a space or the line's end. A line that begins with
// none of the words is a remark.
pub fn word_of(line: &[u8]) -> Word {
    let end = line.iter().position(|x| *x <= b' ').unwrap_or(line.len());
    match &line[..end] {
        b"parents" => Word::Parents,
        b"grow" => Word::Grow,
        b"branches" => Word::Branches,
        b"mixed" => Word::Mixed,
        b"metres" => Word::Metres,
        b"rise" => Word::Rise,
        b"hold" => Word::Hold,
        b"flip" => Word::Flip,
        b"reseal" => Word::Reseal,
        b"pad" => Word::Pad,
        b"encode" => Word::Encode,
        b"image" => Word::Image,
        b"survey" => Word::Survey,
        b"join" => Word::Join,
        b"text" => Word::Text,
        b"decode" => Word::Decode,
        b"unseal" => Word::Unseal,
        b"untext" => Word::Untext,
        b"distances" => Word::Distances,
        b"ask" => Word::Ask,
        b"list" => Word::List,
        b"check" => Word::Check,
        b"nodes" => Word::Nodes,
        b"split" => Word::Split,
        b"view" => Word::View,
        _ => Word::Remark,
    }
}
