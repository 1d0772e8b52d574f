// The calls of a guest's driver, and of a revision 1 guest's reader.
#![tactic(auto)]

ghost use Rattle.std.specs.Prelude.{◌≡◌};
ghost use Rattle.answers.specs.Refusal.{answer_of};
ghost use Rattle.assembly.specs.Told.{told_of};
ghost use Rattle.assembly.specs.Transition.{fresh_driver};
ghost use Rattle.driver.specs.Step.{step_of};
ghost use Rattle.copy_out.specs.CopyOut.{copy_of};
ghost use Rattle.revision1_reader.specs.Step.{take_of};
ghost use Rattle.driver_calls.specs.Entry.{entry_copy_answer, copied_entry};
ghost use Rattle.driver_calls.specs.Told.{what_number, numbers_of};

use answers::{DONE, Refusal, answer_of};
use assembly::{Driver, Told};
use copy_out::Copied;
use entries::KNOWN_LENGTH;
use geometry::Geometry;
use revision1_reader::Taken;

// What a step tells, as numbers. Kept beside the Result: `thayarqo_step` answers this struct.
#[repr(C)]
#[derive(Clone, Copy)]
pub struct StepAnswer {
    pub answer: u8,
    pub what: u8,
    pub slot: u32,
    pub count: u32,
}

// What a step tells, without its numbers. As a number it is the one that C gets.
#[derive(Clone, Copy)]
enum What {
    Nothing = 0,
    Gap = 1,
    EmptyReport = 2,
    Packet = 3,
    Set = 4,
    Conf = 5,
    Reset = 6,
    ResetAll = 7,
}

impl What {
    // As an answer that has a slot and a count of events.
    fn with(self, slot: u32, count: u32) -> StepAnswer
        ensures { result ≡ record { answer = 0; what = what_number self; slot = slot; count = count } }
    {
        StepAnswer {
            answer: DONE,
            what: self as u8,
            slot,
            count,
        }
    }
}

// Kept apart from the other structs of C: one conversion for all would need a trait that sets the fields of each.
impl From<Result<Told, Refusal>> for StepAnswer {
    ghost from_gives = { λ outcome answer. answer ≡ numbers_of (told_of outcome) };

    fn from(outcome: Result<Told, Refusal>) -> StepAnswer {
        match outcome {
            Ok(Told::Nothing) => What::Nothing.with(0, 0),
            Ok(Told::Gap) => What::Gap.with(0, 0),
            Ok(Told::EmptyReport) => What::EmptyReport.with(0, 0),
            Ok(Told::Packet { slot, count }) => What::Packet.with(slot, count),
            Ok(Told::Set(slot)) => What::Set.with(slot, 0),
            Ok(Told::Conf(slot)) => What::Conf.with(slot, 0),
            Ok(Told::Reset(slot)) => What::Reset.with(slot, 0),
            Ok(Told::ResetAll) => What::ResetAll.with(0, 0),
            Err(refusal) => StepAnswer {
                answer: refusal.number(),
                ..What::Nothing.with(0, 0)
            },
        }
    }
}

#[unsafe(no_mangle)]
pub extern "C" fn thayarqo_fresh_driver() -> Driver
    ensures { result ≡ fresh_driver }
{
    Driver::fresh()
}

#[unsafe(no_mangle)]
pub extern "C" fn thayarqo_step(
    driver: &mut Driver,
    geometry: Geometry,
    area: &mut [u8],
    packet: &mut [u8],
) -> StepAnswer
    ensures { let step = step_of geometry driver.old area.old packet.old in
        (result ≡ numbers_of step.stepped.told) × (driver.new ≡ step.stepped.driver)
        × (area.new ≡ step.area) × (packet.new ≡ step.packet) }
{
    driver::step(geometry, driver, area, packet).into()
}

#[unsafe(no_mangle)]
pub extern "C" fn thayarqo_revision1_step(geometry: Geometry, area: &mut [u8]) -> Taken
    ensures { let take = take_of geometry area.old in
        (result ≡ take.taken) × (area.new ≡ take.area) }
{
    revision1_reader::step(geometry, area).into()
}

#[unsafe(no_mangle)]
pub extern "C" fn thayarqo_copy_out(
    geometry: Geometry,
    area: &mut [u8],
    limit: u32,
    out: &mut [u8],
) -> Copied
    ensures { let copy = copy_of geometry area.old limit out.old in
        (result ≡ copy.copied) × (area.new ≡ copy.area) × (out.new ≡ copy.out) }
{
    copy_out::copy_out(geometry, area, limit, out).into()
}

fn lookup(geometry: Geometry, page: &[u8], slot: u32, out: &mut [u8]) -> Result<(), Refusal>
    ensures { (answer_of result ≡ entry_copy_answer geometry page.now slot out.old)
        × (out.new ≡ copied_entry geometry page.now slot out.old) }
{
    let Some(out) = out.as_mut_array::<KNOWN_LENGTH>() else {
        return Err(Refusal::Invalid);
    };
    let entry = entries::lookup(geometry, page, slot)?;
    *out = *entry;
    Ok(())
}

#[unsafe(no_mangle)]
pub extern "C" fn thayarqo_lookup(geometry: Geometry, page: &[u8], slot: u32, out: &mut [u8]) -> u8
    ensures { (result ≡ entry_copy_answer geometry page.now slot out.old)
        × (out.new ≡ copied_entry geometry page.now slot out.old) }
{
    answer_of(lookup(geometry, page, slot, out))
}
