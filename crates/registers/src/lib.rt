// Reads and writes of the registers, the event area and the entry page.
#![tactic(auto)]

mod read;
mod write;

ghost use Rattle.std.specs.Prelude.{◌≡◌};
ghost use Rattle.registers.specs.Read.{told};

use answers::{DONE, Refusal};
pub use read::read_rule;
pub use write::write_rule;

// What a read answers, and the value, 0 where it was refused. C has it from `thayarqo_read`.
#[repr(C)]
#[derive(Clone, Copy)]
pub struct Value {
    pub answer: u8,
    pub value: u32,
}

// Kept apart from the other structs of C: one conversion for all would need a trait that sets the fields of each.
impl From<Result<u32, Refusal>> for Value {
    ghost from_gives = { λ outcome value. value ≡ told outcome };

    fn from(outcome: Result<u32, Refusal>) -> Value {
        match outcome {
            Ok(value) => Value {
                answer: DONE,
                value,
            },
            Err(refusal) => Value {
                answer: refusal.number(),
                value: 0,
            },
        }
    }
}
