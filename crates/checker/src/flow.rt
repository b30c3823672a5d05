// Refusals 10 to 12 under the registers' own labels.
ghost use Rattle.std.specs.Prelude.{◌≡◌};
ghost use Rattle.design.specs.Images.{design_in, RecordsIn};
ghost use Rattle.model.specs.Labelling.{relabelled};
ghost use Rattle.model.specs.Flow.{flow_answer};
ghost use Rattle.design.specs.Kept.{ParametersKept};
ghost use Rattle.design.specs.Labels.{LabelsKept};
ghost use Rattle.checker_flow.specs.Flows.{BodiesKept};

use design::Design;
use design::image::Image;
use design::labels::register_labels;
use design::scopes::{SCOPES, has_parameters};
use model::Answer;

// The first flow fault of a design with parameters, with a fresh table of what is in scope of each state.
fn declared_faults(image: &Image, labels: &[u8]) -> Answer
    requires { RecordsIn image.now × ParametersKept (design_in image.now) × LabelsKept (design_in image.now) labels.now × BodiesKept (design_in image.now) }
    ensures { result ≡ flow_answer (relabelled (design_in image.now) labels.now) }
{
    let mut scopes = [0u8; SCOPES];
    design::scopes::scopes(image, &mut scopes);
    checker_flow::flow::faults(image, labels, &scopes)
}

// The first flow fault, with a fresh table of the labels in the registers' records. Designs without
// parameters are spared the table of scopes.
pub fn flow_faults(image: &Image) -> Answer
    requires { RecordsIn image.now × ParametersKept (design_in image.now) × BodiesKept (design_in image.now) }
    ensures { result ≡ flow_answer (design_in image.now) }
{
    let mut labels = [0u8; Design::REGISTERS];
    register_labels(image, &mut labels);
    if has_parameters(image) {
        return declared_faults(image, &labels);
    }
    checker_flow::flow::plain_faults(image, &labels)
}
