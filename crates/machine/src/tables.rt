// What a run needs beside the image.
ghost use Rattle.std.specs.Prelude.{◌*◌, ◌≡◌, length, replicate};
ghost use Rattle.model.specs.Limits.{states_max};
ghost use Rattle.model.specs.Rules.{Keeps};
ghost use Rattle.design.specs.Images.{design_in};
ghost use Rattle.design.specs.Resets.{with_defaults};
ghost use Rattle.design.specs.Scopes.{scope_length, with_scopes, Scopes};
ghost use Rattle.machine.specs.Cycles.{TablesIn};

use design::Design;
use design::image::Image;
use design::reset::default_targets;
use design::scopes::{SCOPES, has_parameters, scopes};

// Made once for each call: the default targets, and what is in scope of each state.
#[derive(Clone, Copy)]
pub struct Tables {
    pub defaults: [u8; Design::STATES],
    pub scopes: [u8; SCOPES],
}

impl Tables {
    // The tables of an image.
    pub fn of(image: &Image) -> Tables
        requires { Keeps image.now.bytes.now }
        ensures { (result.defaults ≡ with_defaults (design_in image.now) (replicate states_max 0))
            × (result.scopes ≡ with_scopes (design_in image.now) (length (design_in image.now).states) (replicate (scope_length * states_max) 0))
            × TablesIn image.now result }
    {
        let mut tables = Tables {
            defaults: [0u8; Design::STATES],
            scopes: [0u8; SCOPES],
        };
        default_targets(image, &mut tables.defaults);
        fill_scopes(image, &mut tables.scopes);
        tables
    }
}

// What is in scope of each state, in a fresh table. Without parameters it has only zeros, and stays.
fn fill_scopes(image: &Image, table: &mut [u8])
    requires { Keeps image.now.bytes.now × (table.old ≡ replicate (scope_length * states_max) 0) }
    ensures { (table.new ≡ with_scopes (design_in image.now) image.now.design.states table.old) × Scopes (design_in image.now) table.new }
{
    if !has_parameters(image) {
        return;
    }
    scopes(image, table);
}
