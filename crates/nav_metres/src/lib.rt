// Whether a checked image has metres, and the metres of one of its nodes.
#![tactic(auto)]

ghost use Rattle.std.specs.Prelude.{◌≡◌};
ghost use Rattle.meaning.specs.Parents.{entry};
ghost use Rattle.meaning.specs.Image.{list_of, metres_in};
ghost use Rattle.nav_strings.specs.Nodes.{IsNode};
ghost use Rattle.nav_metres.specs.Presence.{are_at};

use image_layout::{Layout, sample_at};
use image_words::word;

// Does an image have metres? None are not 0 metres.
pub fn has_metres(image: Layout) -> bool
    ensures { result ≡ are_at image.metres }
{
    image.metres.is_some()
}

// The metres of node x, one word for each node, and 0 where the image has none.
pub fn metres_of(b: &[u8], image: Layout, x: usize) -> u32
    requires { IsNode b.now image x }
    ensures { result ≡ entry (list_of (metres_in b.now)) x }
{
    let at = image.metres;
    let Some(block) = at else {
        return 0;
    };
    word(b, sample_at(block as usize, x - 1))
}
