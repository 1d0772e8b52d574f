// Closing kbdif's node settings: which modes are on, and whether each has what it needs.
#![tactic(auto)]

ghost use Rattle.std.specs.Prelude.{◌≡◌};
ghost use Rattle.closing.specs.Closing.{is_absolute, is_multi_touch, is_raw, is_scaled, has_contacts};
ghost use Rattle.closing.specs.Closing.{lack_tests, first_lack, number_of, not_closed, close_settings};

use answers::{DONE, Refusal};
use node_names::NumberName;
use nodes::{Parameter, Settings};

// The most contacts that a node may give.
const MOST_CONTACTS: u32 = 32;

// `thayarqo_close` answers this struct: a Result of its other ten fields would be a second one like it.
#[repr(C)]
#[derive(Clone, Copy, Default)]
pub struct Closed {
    pub answer: u8,
    pub absolute: bool,
    pub multi_touch: bool,
    pub raw: bool,
    pub disable_keyboard: bool,
    pub disable_pointer: bool,
    pub width: u32,
    pub height: u32,
    pub contacts: u32,
    pub touch_width: u32,
    pub touch_height: u32,
}

fn is_absolute(settings: &Settings) -> bool
    ensures { result ≡ is_absolute settings.now }
{
    settings.feature_abs_pointer && settings.request_abs_pointer
}

fn is_multi_touch(settings: &Settings) -> bool
    ensures { result ≡ is_multi_touch settings.now }
{
    settings.feature_multi_touch && settings.request_multi_touch
}

fn is_raw(settings: &Settings) -> bool
    ensures { result ≡ is_raw settings.now }
{
    settings.feature_raw_pointer && settings.request_raw_pointer && is_absolute(settings)
}

// Absolute coordinates without raw ones are scaled to an area. What absolute and raw are is known by their contracts, and one of them
// negated is all that the definition adds.
#[tactic(auto, unfolding(crate::specs::Closing::is_scaled))]
fn is_scaled(settings: &Settings) -> bool
    ensures { result ≡ is_scaled settings.now }
{
    is_absolute(settings) && !is_raw(settings)
}

fn has_contacts(contacts: Parameter) -> bool
    ensures { result ≡ has_contacts contacts }
{
    contacts.given && (1..=MOST_CONTACTS).contains(&contacts.value)
}

// The first number that is needed and wasn't given as it has to be. Each test passed rules out one more row of the table.
#[tactic(auto, unfolding(crate::specs::Closing::first_lack))]
fn first_lack(settings: &Settings) -> Option<NumberName>
    ensures { result ≡ first_lack (lack_tests settings.now) }
{
    let scaled = is_scaled(settings);
    let touch = is_multi_touch(settings);
    if scaled && !settings.width.given {
        Some(NumberName::Width)
    } else if scaled && !settings.height.given {
        Some(NumberName::Height)
    } else if touch && !has_contacts(settings.contacts) {
        Some(NumberName::Contacts)
    } else if touch && !settings.touch_width.given {
        Some(NumberName::TouchWidth)
    } else if touch && !settings.touch_height.given {
        Some(NumberName::TouchHeight)
    } else {
        None
    }
}

// Kept: `Parameter` is the struct that C reads and writes, so its flag is tested here.
fn number_of(parameter: Parameter) -> u32
    ensures { result ≡ number_of parameter }
{
    if parameter.given { parameter.value } else { 0 }
}

fn refused() -> Closed
    ensures { result ≡ not_closed }
{
    Closed {
        answer: Refusal::BadSetting.number(),
        ..Closed::default()
    }
}

// The lack that was found, or none, decides the definition's one case; each field of the record is then some function's answer.
#[tactic(auto, unfolding(crate::specs::Closing::unless_lacking))]
pub fn close(settings: Settings) -> Closed
    ensures { result ≡ close_settings settings }
{
    if first_lack(&settings).is_some() {
        return refused();
    }
    Closed {
        answer: DONE,
        absolute: is_absolute(&settings),
        multi_touch: is_multi_touch(&settings),
        raw: is_raw(&settings),
        disable_keyboard: settings.feature_disable_keyboard,
        disable_pointer: settings.feature_disable_pointer,
        width: number_of(settings.width),
        height: number_of(settings.height),
        contacts: number_of(settings.contacts),
        touch_width: number_of(settings.touch_width),
        touch_height: number_of(settings.touch_height),
    }
}
