// The thirteen public calls, for C and Rust: include/parlaqen.h declares them. Each is the call of
// the same name of `parlaqen`, with the same contract.
#![tactic(auto)]

ghost use Rattle.std.specs.Prelude.{◌≡◌};
ghost use Rattle.meaning.specs.Answers.{came_to};
ghost use Rattle.calls.specs.Calls.{string_of_parents, parents_of_string, image_of_parents, image_with_metres, parents_of_image, metres_of_image, check_image, ask_image, list_image, split_pack, join_pack, parents_of_text, text_of_parents};

use meaning::Answer;

#[unsafe(no_mangle)]
pub extern "C" fn plq_string_of_parents(parents: &[u32], bytes: &mut [u8]) -> Answer
    ensures { came_to result bytes.new ≡ string_of_parents parents.now bytes.old }
{
    parlaqen::plq_string_of_parents(parents, bytes)
}

#[unsafe(no_mangle)]
pub extern "C" fn plq_parents_of_string(bytes: &[u8], bits: usize, parents: &mut [u32]) -> Answer
    ensures { came_to result parents.new ≡ parents_of_string bytes.now bits parents.old }
{
    parlaqen::plq_parents_of_string(bytes, bits, parents)
}

#[unsafe(no_mangle)]
pub extern "C" fn plq_image_of_parents(parents: &[u32], image: &mut [u8]) -> Answer
    ensures { came_to result image.new ≡ image_of_parents parents.now image.old }
{
    parlaqen::plq_image_of_parents(parents, image)
}

#[unsafe(no_mangle)]
pub extern "C" fn plq_image_with_metres(parents: &[u32], metres: &[u32], image: &mut [u8]) -> Answer
    ensures { came_to result image.new ≡ image_with_metres parents.now metres.now image.old }
{
    parlaqen::plq_image_with_metres(parents, metres, image)
}

#[unsafe(no_mangle)]
pub extern "C" fn plq_parents_of_image(image: &[u8], parents: &mut [u32]) -> Answer
    ensures { came_to result parents.new ≡ parents_of_image image.now parents.old }
{
    parlaqen::plq_parents_of_image(image, parents)
}

#[unsafe(no_mangle)]
pub extern "C" fn plq_metres_of_image(image: &[u8], metres: &mut [u32]) -> Answer
    ensures { came_to result metres.new ≡ metres_of_image image.now metres.old }
{
    parlaqen::plq_metres_of_image(image, metres)
}

#[unsafe(no_mangle)]
pub extern "C" fn plq_check_image(image: &[u8]) -> Answer
    ensures { came_to result tt ≡ check_image image.now }
{
    parlaqen::plq_check_image(image)
}

#[unsafe(no_mangle)]
pub extern "C" fn plq_ask(image: &[u8], questions: &[i32], answers: &mut [u32]) -> Answer
    ensures { came_to result answers.new ≡ ask_image image.now questions.now answers.old }
{
    parlaqen::plq_ask(image, questions, answers)
}

#[unsafe(no_mangle)]
pub extern "C" fn plq_split(
    bytes: &[u8],
    bits: usize,
    trees: usize,
    starts: &mut [u32],
    sizes: &mut [u32],
) -> Answer
    ensures { came_to result (starts.new, sizes.new) ≡ split_pack bytes.now bits trees starts.old sizes.old }
{
    parlaqen::plq_split(bytes, bits, trees, starts, sizes)
}

#[unsafe(no_mangle)]
pub extern "C" fn plq_join(pack: &mut [u8], bits: usize, trees: usize, parents: &[u32]) -> Answer
    ensures { came_to result pack.new ≡ join_pack pack.old bits trees parents.now }
{
    parlaqen::plq_join(pack, bits, trees, parents)
}

#[unsafe(no_mangle)]
pub extern "C" fn plq_list(image: &[u8], node: u32, pairs: &mut [u32]) -> Answer
    ensures { came_to result pairs.new ≡ list_image image.now node pairs.old }
{
    parlaqen::plq_list(image, node, pairs)
}

#[unsafe(no_mangle)]
pub extern "C" fn plq_parents_of_text(text: &[u8], parents: &mut [u32]) -> Answer
    ensures { came_to result parents.new ≡ parents_of_text text.now parents.old }
{
    parlaqen::plq_parents_of_text(text, parents)
}

#[unsafe(no_mangle)]
pub extern "C" fn plq_text_of_parents(parents: &[u32], text: &mut [u8]) -> Answer
    ensures { came_to result text.new ≡ text_of_parents parents.now text.old }
{
    parlaqen::plq_text_of_parents(parents, text)
}
