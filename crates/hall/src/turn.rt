use steps::Step;

/// What happens next to a hall: an actor makes a step, or the machine stops and the hall is opened again over what the stop left. The bits of `choice` say which of the contents that the
/// stop may leave each file has.
#[derive(Drop)]
pub enum Turn {
    Do { actor: u32, step: Step },
    Stop { choice: u64 },
}
