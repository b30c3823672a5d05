// Refusal 16: ports belong to the host, so no assignment names one, and none is an argument. A command
// is judged by its record.
ghost use Rattle.std.specs.Prelude.{◌<◌, ◌≡◌, length};
ghost use Rattle.model.specs.Indices.{lowest_failing};
ghost use Rattle.model.specs.States.{is_port as is_port_of};
ghost use Rattle.model.specs.Ports.{field_spares_ports as field_spares_ports_of, names_no_port as names_no_port_of};
ghost use Rattle.design.specs.Images.{design_in, RecordsIn};

use design::image::Image;

// A register byte or a goto's field is the number of a port.
fn is_port(image: &Image, r: usize) -> bool
    ensures { result ≡ is_port_of (design_in image.now) r }
{
    if image.design.registers <= r {
        return false;
    }
    image.register_kind(r) == 1
}

// Field j of a goto to state t, which is r, is no port, where it is an argument.
fn field_spares_ports(image: &Image, t: usize, j: usize, r: usize) -> bool
    requires { t < image.now.design.states }
    ensures { result ≡ field_spares_ports_of (design_in image.now) t j r }
{
    !((j < image.parameters(t)) & is_port(image, r))
}

// Command n is no assignment to a port, and no goto that has one for an argument.
fn names_no_port(image: &Image, n: usize) -> bool
    requires { RecordsIn image.now × (n < image.now.design.commands) }
    ensures { result ≡ names_no_port_of (design_in image.now) n }
{
    let kind = image.command_kind(n);
    match kind {
        1 => {
            let r = image.command_item(n);
            !is_port(image, r)
        }
        4 => {
            let t = image.command_item(n);
            if image.parameters(t) == 0 {
                return true;
            }
            let a = image.command_a(n);
            let b = image.command_b(n);
            field_spares_ports(image, t, 0, a) & field_spares_ports(image, t, 1, b)
        }
        _ => true,
    }
}

// Refusal 16, at the lowest command.
pub fn ports_named(image: &Image) -> Option<usize>
    requires { RecordsIn image.now }
    ensures { result ≡ lowest_failing (names_no_port_of (design_in image.now)) (length (design_in image.now).commands) }
{
    (0..image.design.commands).find(|&n| !names_no_port(image, n))
}
