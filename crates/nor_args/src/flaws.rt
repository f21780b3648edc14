//! The reason why the value of `-p` is wrong: no `dummy:`, the first setting with a flaw, or no `emulate=`.
ghost use Rattle.std.specs.Prelude.{◌≡◌, option_map};
ghost use Rattle.nor_args.specs.Programmer.{are_settings, is_setting};
ghost use Rattle.nor_args.specs.Reasons.{IsWrongProgrammer, first_flawed, flaw_of, has_known_key, is_flawed};
ghost use Rattle.nor_args.specs.Text.{pieces_of};

use crate::numbers::{read_byte, read_number, read_polls, read_unique};
use crate::programmer::Emulated;
use crate::reasons::{Flaw, Reason};
use crate::settings::{is_alone, split_setting};

/// Returns the reason why `text` is a wrong value of `-p`. For a correct value the result is `NoChip`, too.
pub fn programmer_reason(text: &str) -> Reason<'_>
    ensures { IsWrongProgrammer text.now result }
{
    let Some(list) = text.strip_prefix("dummy:") else {
        return Reason::NoPrefix;
    };
    match first_flawed(list) {
        Some(setting) => Reason::Setting {
            setting,
            flaw: flaw_of(setting),
        },
        None => Reason::NoChip,
    }
}

/// Returns whether each setting in `list` has a known key and a correct value, and no two settings have the same key.
pub fn are_settings(list: &str) -> bool
    ensures { result ≡ are_settings (pieces_of list.now) }
{
    list.split(',')
        .all(|setting| is_setting(setting) && is_alone(list, setting))
}

fn is_setting(setting: &str) -> bool
    ensures { result ≡ is_setting setting.now }
{
    let (key, value) = split_setting(setting);
    match key {
        "emulate" => Emulated::named(value).is_some(),
        "image" | "status" | "trace" => !value.is_empty(),
        "stop" => read_number(value).is_some(),
        "unique" => read_unique(value).is_some(),
        "busy" => read_polls(value).is_some(),
        "power" => read_byte(value).is_some(),
        _ => false,
    }
}

fn first_flawed(list: &str) -> Option<&str>
    ensures { option_map (λ setting. setting.now) result ≡ first_flawed (pieces_of list.now) }
{
    list.split(',').find(|setting| is_flawed(list, setting))
}

#[tactic(auto, unfolding(crate::specs::Reasons::is_flawed))]
fn is_flawed(list: &str, setting: &str) -> bool
    ensures { result ≡ is_flawed (pieces_of list.now) setting.now }
{
    !is_setting(setting) || !is_alone(list, setting)
}

fn flaw_of(setting: &str) -> Flaw
    ensures { result ≡ flaw_of setting.now }
{
    Flaw::of(has_known_key(setting), is_setting(setting))
}

fn has_known_key(setting: &str) -> bool
    ensures { result ≡ has_known_key setting.now }
{
    let (key, _) = split_setting(setting);
    matches!(
        key,
        "emulate" | "image" | "status" | "trace" | "stop" | "unique" | "busy" | "power"
    )
}
