// The vocabulary that the definitions in specs/ and the code share: how a body ends, what a command
// comes to, and what a call answers. What each case means is said in specs/.
#![tactic(auto)]

ghost use Rattle.std.specs.Prelude.{◌≡◌};
ghost use Rattle.model.specs.Answers.{number_of};
ghost use Rattle.model.specs.Verdict.{refused_at as refused_at_of};

// How a body ends: by a goto, with the state it names and the registers that are its arguments, or by a fall.
#[derive(Clone, Copy)]
pub enum Ending {
    Goto(usize, usize, usize),
    Fall,
}

// What a command comes to. The ending is held inside the case of a command that transferred.
#[derive(Clone, Copy)]
pub enum Outcome {
    Continued,
    Transferred(Ending),
}

// Why the box says no: a case for each number of document 01's table, in its order from 1 to 15, and then those of document 02's requests.
#[derive(Clone, Copy)]
pub enum Refusal {
    Directory,
    LabelRow,
    RegisterRecord,
    StateRecord,
    NodeRecord,
    NodeUse,
    Depth,
    Shape,
    ChildLabel,
    AssignFlow,
    GotoFlow,
    FallFlow,
    NoPort,
    Area,
    CycleCount,
    PortAssigned,
    PortValue,
    NoRaising,
    Parameter,
    RaiseParameters,
    JournalArea,
    StepsBack,
    TraceCycle,
    OutputArea,
    GateDirectory,
    GateWire,
}

impl Refusal {
    // This refusal, at a place.
    pub fn at(self, place: usize) -> RefusedAt
        ensures { result ≡ record { refusal = self; place = place } }
    {
        RefusedAt {
            refusal: self,
            place,
        }
    }
}

// The number of a refusal in the table.
impl From<Refusal> for u32 {
    ghost from_gives = { λ refusal number. number ≡ number_of refusal };

    fn from(refusal: Refusal) -> u32 {
        match refusal {
            Refusal::Directory => 1,
            Refusal::LabelRow => 2,
            Refusal::RegisterRecord => 3,
            Refusal::StateRecord => 4,
            Refusal::NodeRecord => 5,
            Refusal::NodeUse => 6,
            Refusal::Depth => 7,
            Refusal::Shape => 8,
            Refusal::ChildLabel => 9,
            Refusal::AssignFlow => 10,
            Refusal::GotoFlow => 11,
            Refusal::FallFlow => 12,
            Refusal::NoPort => 13,
            Refusal::Area => 14,
            Refusal::CycleCount => 15,
            Refusal::PortAssigned => 16,
            Refusal::PortValue => 17,
            Refusal::NoRaising => 18,
            Refusal::Parameter => 19,
            Refusal::RaiseParameters => 20,
            Refusal::JournalArea => 21,
            Refusal::StepsBack => 22,
            Refusal::TraceCycle => 23,
            Refusal::OutputArea => 24,
            Refusal::GateDirectory => 25,
            Refusal::GateWire => 26,
        }
    }
}

// A refusal and its place.
#[derive(Clone, Copy)]
pub struct RefusedAt {
    pub refusal: Refusal,
    pub place: usize,
}

// What a call answers: an acceptance with its count, or a refusal with its place. The count is what the call's
// meaning says: cycles run, steps gone back, bytes asked for or written, else 0.
pub type Answer = Result<usize, RefusedAt>;

// The refusal at the place that was found. Where none was, nothing is refused.
pub fn refused_at(refusal: Refusal, found: Option<usize>) -> Answer
    ensures { result ≡ refused_at_of refusal found }
{
    match found {
        Some(place) => Err(refusal.at(place)),
        None => Ok(0),
    }
}
