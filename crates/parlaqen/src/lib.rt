// The thirteen public calls, for other crates: `parlaqen_c` exports them to C and Rust. Each is one
// call of its layer, with the same contract.
#![tactic(auto)]

ghost use Rattle.std.specs.Prelude.{◌≡◌};
ghost use Rattle.meaning.specs.Answers.{came_to};
ghost use Rattle.calls.specs.Calls.{string_of_parents, parents_of_string, image_of_parents, image_with_metres, parents_of_image, metres_of_image, check_image, ask_image, list_image, split_pack, join_pack, parents_of_text, text_of_parents};

use meaning::Answer;

pub fn plq_string_of_parents(parents: &[u32], bytes: &mut [u8]) -> Answer
    ensures { came_to result bytes.new ≡ string_of_parents parents.now bytes.old }
{
    call_string_of_parents::string_of_parents(parents, bytes)
}

pub fn plq_parents_of_string(bytes: &[u8], bits: usize, parents: &mut [u32]) -> Answer
    ensures { came_to result parents.new ≡ parents_of_string bytes.now bits parents.old }
{
    call_parents_of_string::parents_of_string(bytes, bits, parents)
}

pub fn plq_image_of_parents(parents: &[u32], image: &mut [u8]) -> Answer
    ensures { came_to result image.new ≡ image_of_parents parents.now image.old }
{
    call_image_of_parents::image_of_parents(parents, image)
}

pub fn plq_image_with_metres(parents: &[u32], metres: &[u32], image: &mut [u8]) -> Answer
    ensures { came_to result image.new ≡ image_with_metres parents.now metres.now image.old }
{
    call_image_with_metres::image_with_metres(parents, metres, image)
}

pub fn plq_parents_of_image(image: &[u8], parents: &mut [u32]) -> Answer
    ensures { came_to result parents.new ≡ parents_of_image image.now parents.old }
{
    call_parents_of_image::parents_of_image(image, parents)
}

pub fn plq_metres_of_image(image: &[u8], metres: &mut [u32]) -> Answer
    ensures { came_to result metres.new ≡ metres_of_image image.now metres.old }
{
    call_metres_of_image::metres_of_image(image, metres)
}

pub fn plq_check_image(image: &[u8]) -> Answer
    ensures { came_to result tt ≡ check_image image.now }
{
    call_check_image::check_image(image)
}

pub fn plq_ask(image: &[u8], questions: &[i32], answers: &mut [u32]) -> Answer
    ensures { came_to result answers.new ≡ ask_image image.now questions.now answers.old }
{
    call_ask::ask(image, questions, answers)
}

pub fn plq_split(
    bytes: &[u8],
    bits: usize,
    trees: usize,
    starts: &mut [u32],
    sizes: &mut [u32],
) -> Answer
    ensures { came_to result (starts.new, sizes.new) ≡ split_pack bytes.now bits trees starts.old sizes.old }
{
    call_split::split(bytes, bits, trees, starts, sizes)
}

pub fn plq_join(pack: &mut [u8], bits: usize, trees: usize, parents: &[u32]) -> Answer
    ensures { came_to result pack.new ≡ join_pack pack.old bits trees parents.now }
{
    call_join::join(pack, bits, trees, parents)
}

pub fn plq_list(image: &[u8], node: u32, pairs: &mut [u32]) -> Answer
    ensures { came_to result pairs.new ≡ list_image image.now node pairs.old }
{
    call_list::list(image, node, pairs)
}

pub fn plq_parents_of_text(text: &[u8], parents: &mut [u32]) -> Answer
    ensures { came_to result parents.new ≡ parents_of_text text.now parents.old }
{
    call_parents_of_text::parents_of_text(text, parents)
}

pub fn plq_text_of_parents(parents: &[u32], text: &mut [u8]) -> Answer
    ensures { came_to result text.new ≡ text_of_parents parents.now text.old }
{
    call_text_of_parents::text_of_parents(parents, text)
}
