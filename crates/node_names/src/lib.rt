// The names of the nodes that are meant in kbdif's node settings.
#![tactic(auto)]

ghost use Rattle.std.specs.Prelude.{◌≡◌};
ghost use Rattle.node_names.specs.Names.{rows, lookup, node_of};
ghost use Rattle.node_names.specs.declared.Node.TheVariants.{Other};

// Nodes whose value is "0" or "1": the back end's features and the front end's requests.
#[derive(Clone, Copy, Debug, PartialEq, Eq)]
pub enum FlagName {
    FeatureDisableKeyboard,
    FeatureDisablePointer,
    FeatureAbsPointer,
    FeatureMultiTouch,
    FeatureRawPointer,
    RequestAbsPointer,
    RequestMultiTouch,
    RequestRawPointer,
}

// Nodes whose value is a number.
#[derive(Clone, Copy, Debug, PartialEq, Eq)]
pub enum NumberName {
    Width,
    Height,
    Contacts,
    TouchWidth,
    TouchHeight,
}

// Kept: any other name is one case of the definition, which says that it is ignored (`node_of`).
#[derive(Clone, Copy, Debug, PartialEq, Eq)]
pub enum Node {
    Flag(FlagName),
    Number(NumberName),
    Other,
}

use FlagName::*;
use Node::{Flag, Number, Other};
use NumberName::*;

// The names that are meant, each with its node.
static NODES: [(&[u8], Node); 13] = [
    (b"feature-disable-keyboard", Flag(FeatureDisableKeyboard)),
    (b"feature-disable-pointer", Flag(FeatureDisablePointer)),
    (b"feature-abs-pointer", Flag(FeatureAbsPointer)),
    (b"feature-multi-touch", Flag(FeatureMultiTouch)),
    (b"feature-raw-pointer", Flag(FeatureRawPointer)),
    (b"request-abs-pointer", Flag(RequestAbsPointer)),
    (b"request-multi-touch", Flag(RequestMultiTouch)),
    (b"request-raw-pointer", Flag(RequestRawPointer)),
    (b"width", Number(Width)),
    (b"height", Number(Height)),
    (b"multi-touch-num-contacts", Number(Contacts)),
    (b"multi-touch-width", Number(TouchWidth)),
    (b"multi-touch-height", Number(TouchHeight)),
];

// The node of a name in a table, which counts whole. A name that the table lacks is another node's.
fn lookup(table: &[(&[u8], Node)], name: &[u8]) -> Node
    ensures { result ≡ lookup name.now (rows table.entry.now) Other }
{
    for (known, node) in table {
        if name == *known {
            return *node;
        }
    }
    Other
}

// The table is the definition's two, one behind the other.
#[tactic(auto, unfolding(crate::specs::Names::lookup, crate::specs::Names::number_node, crate::specs::Names::node_of))]
pub fn node_of(name: &[u8]) -> Node
    ensures { result ≡ node_of name.now }
{
    lookup(&NODES, name)
}
