// Node settings, one node at a time.
#![tactic(auto)]

ghost use Rattle.std.specs.Prelude.{◌≡◌};
ghost use Rattle.nodes.specs.Settings.{fresh_settings};
ghost use Rattle.nodes.specs.Nodes.{read_node};
ghost use Rattle.closing.specs.Closing.{close_settings};

use closing::Closed;
use nodes::Settings;

#[unsafe(no_mangle)]
pub extern "C" fn thayarqo_fresh_settings() -> Settings
    ensures { result ≡ fresh_settings }
{
    Settings::fresh()
}

#[unsafe(no_mangle)]
pub extern "C" fn thayarqo_node(settings: &mut Settings, name: &[u8], value: &[u8]) -> u8
    ensures { let read = read_node settings.old name.now value.now in
        (result ≡ read.answer) × (settings.new ≡ read.settings) }
{
    answers::answer_of(settings.read_node(name, value))
}

#[unsafe(no_mangle)]
pub extern "C" fn thayarqo_close(settings: Settings) -> Closed
    ensures { result ≡ close_settings settings }
{
    closing::close(settings)
}
