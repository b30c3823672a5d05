// The tree of states.
ghost use Rattle.std.specs.Prelude.{◌<◌, ◌≡◌};
ghost use Rattle.model.specs.States.{is_child as is_child_of};
ghost use Rattle.design.specs.Images.{design_in};

use crate::image::Image;

// State q is a child of s.
pub fn is_child(image: &Image, s: usize, q: usize) -> bool
    requires { q < image.now.design.states }
    ensures { result ≡ is_child_of (design_in image.now) s q }
{
    (q != 0) & (q < image.design.states) & (image.parent(q) == s)
}
