// kbdif's node settings: nodes are read one at a time, then the settings are closed.
#![tactic(auto)]

ghost use Rattle.std.specs.Prelude.{◌≡◌};
ghost use Rattle.answers.specs.Refusal.{answer_of};
ghost use Rattle.answers.specs.Refusals.{first_refusal};
ghost use Rattle.nodes.specs.Settings.{fresh_settings, with_flag, with_number};
ghost use Rattle.nodes.specs.Nodes.{read_flag, flag_answer, flag_refusals, read_node};

use answers::Refusal;
use decimals::BadText;
use node_names::{FlagName, Node, NumberName};

// A number of C has its flag beside it: `thayarqo_parameter` is this struct.
#[repr(C)]
#[derive(Clone, Copy, Default)]
pub struct Parameter {
    pub given: bool,
    pub value: u32,
}

// What the nodes have said so far.
#[repr(C)]
#[derive(Clone, Copy, Default)]
pub struct Settings {
    pub feature_disable_keyboard: bool,
    pub feature_disable_pointer: bool,
    pub feature_abs_pointer: bool,
    pub feature_multi_touch: bool,
    pub feature_raw_pointer: bool,
    pub request_abs_pointer: bool,
    pub request_multi_touch: bool,
    pub request_raw_pointer: bool,
    pub width: Parameter,
    pub height: Parameter,
    pub contacts: Parameter,
    pub touch_width: Parameter,
    pub touch_height: Parameter,
}

// A flag is one byte, "0" or "1". The first byte that spoils the text comes before what follows it.
#[tactic(auto, unfolding(answers::specs::Refusals::first_refusal), using(crate::proofs::Laws::Flags::flag_of_text))]
fn read_flag(text: &[u8]) -> Result<bool, BadText>
    ensures { (flag_answer result ≡ first_refusal (flag_refusals text.now)) × (result ≡ read_flag text.now) }
{
    match text {
        [b'0'] => Ok(false),
        [b'1'] => Ok(true),
        [b'0' | b'1', ..] => Err(BadText { place: 1 }),
        _ => Err(BadText { place: 0 }),
    }
}

impl Settings {
    // Before any node: no flag is on, and no number is given.
    pub fn fresh() -> Settings
        ensures { result ≡ fresh_settings }
    {
        Settings::default()
    }

    // Each arm stores the field that the definition's line for this name sets. Kept beside set_number: the names are of two enums and the
    // fields of two types, so one function for both would need a trait with these two matches in it.
    #[tactic(auto, unfolding(crate::specs::Settings::with_flag))]
    fn set_flag(&mut self, name: FlagName, value: bool)
        ensures { self.new ≡ with_flag self.old name value }
    {
        match name {
            FlagName::FeatureDisableKeyboard => self.feature_disable_keyboard = value,
            FlagName::FeatureDisablePointer => self.feature_disable_pointer = value,
            FlagName::FeatureAbsPointer => self.feature_abs_pointer = value,
            FlagName::FeatureMultiTouch => self.feature_multi_touch = value,
            FlagName::FeatureRawPointer => self.feature_raw_pointer = value,
            FlagName::RequestAbsPointer => self.request_abs_pointer = value,
            FlagName::RequestMultiTouch => self.request_multi_touch = value,
            FlagName::RequestRawPointer => self.request_raw_pointer = value,
        }
    }

    // As set_flag. One generic function would need a trait for the two kinds of names, with these same two matches in its impls.
    #[tactic(auto, unfolding(crate::specs::Settings::with_number))]
    fn set_number(&mut self, name: NumberName, value: u32)
        ensures { self.new ≡ with_number self.old name value }
    {
        let parameter = Parameter { given: true, value };
        match name {
            NumberName::Width => self.width = parameter,
            NumberName::Height => self.height = parameter,
            NumberName::Contacts => self.contacts = parameter,
            NumberName::TouchWidth => self.touch_width = parameter,
            NumberName::TouchHeight => self.touch_height = parameter,
        }
    }

    // Reads one node. A refusal leaves the settings as they were, and so does a name that is not meant here.
    #[tactic(auto, unfolding(crate::specs::Nodes::after_flag, crate::specs::Nodes::after_number, crate::specs::Nodes::after_node))]
    pub fn read_node(&mut self, name: &[u8], value: &[u8]) -> Result<(), Refusal>
        ensures { let read = read_node self.old name.now value.now in
            (answer_of result ≡ read.answer) × (self.new ≡ read.settings) }
    {
        match node_names::node_of(name) {
            Node::Flag(flag) => self.set_flag(flag, read_flag(value)?),
            Node::Number(number) => self.set_number(number, decimals::read_number(value)?),
            Node::Other => {}
        }
        Ok(())
    }
}
