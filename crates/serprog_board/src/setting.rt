//! The value of the option `-p`.

ghost use Rattle.std.specs.Prelude.{◌≡◌, option_map};
ghost use Rattle.std.specs.Result.{MatchResult};
ghost use Rattle.nor_args.specs.Text.{pieces_of};
ghost use Rattle.serprog_board.specs.Setting.{EndsWithRate, HasNoRate, IsSetting, IsWrongBy, IsWrongSetting};
ghost use Rattle.serprog_board.specs.Setting.{chip_select_of, first_wrong, has_serprog_key};
ghost use Rattle.serprog_board.specs.Setting.{is_serprog_setting, is_wrong, names_network};

use nor_args::{Flaw, is_alone, read_clock, read_number, setting_value, split_setting};

/// The value of `-p`: `serprog:` and `KEY=VALUE` pairs in any order, each key at most once. `dev=` is required.
#[derive(Clone, Copy)]
pub struct Setting<'a> {
    /// `dev=PATH`: the device of the programmer.
    pub device: &'a str,
    /// `spispeed=HZ`: the clock in hertz, from 1 to 4,294,967,295, in the form that `read_clock` accepts.
    pub hertz: Option<u32>,
    /// `cs=N`: the chip select that the programmer uses, from 0 to 255.
    pub chip_select: Option<u8>,
}

/// The reason why the value of `-p` describes no programmer.
#[derive(Clone, Copy)]
pub enum WrongSetting<'a> {
    /// The key `ip=` names a programmer in the network, which this program does not support.
    Network,
    /// The device ends with a colon and a baud rate, as in flashrom. For this program, `stty` sets the baud rate.
    BaudRate { device: &'a str, rate: &'a str },
    /// The value doesn't begin with `serprog:`.
    NoPrefix,
    /// The first setting with a flaw, and the flaw.
    Flawed { setting: &'a str, flaw: Flaw },
    /// No setting is wrong, but `dev=` is missing.
    NoDevice,
}

impl<'a> Setting<'a> {
    /// Parses the value of `-p`. A `KEY=VALUE` pair ends at the next comma, and its key at the first `=`. Checks for
    /// these faults in this order: `NoPrefix`, then `Network` (key `ip`) or `Flawed` for the first wrong pair, then
    /// `NoDevice`, then `BaudRate` for a device that ends with a colon and a decimal number (at most 20 digits, below
    /// 2^64).
    pub fn read(text: &'a str) -> Result<Setting<'a>, WrongSetting<'a>>
        ensures { MatchResult result (IsSetting text.now) (IsWrongSetting text.now) }
    {
        let Some(list) = text.strip_prefix("serprog:") else {
            return Err(WrongSetting::NoPrefix);
        };
        if let Some(setting) = first_wrong(list) {
            return Err(WrongSetting::of(setting));
        }
        let Some(device) = setting_value(list, "dev") else {
            return Err(WrongSetting::NoDevice);
        };
        refuse_rate(device)?;
        Ok(Setting {
            device,
            hertz: setting_value(list, "spispeed").and_then(|value| read_clock(value)),
            chip_select: setting_value(list, "cs").and_then(|value| read_select(value)),
        })
    }
}

impl<'a> WrongSetting<'a> {
    fn of(setting: &'a str) -> WrongSetting<'a>
        ensures { IsWrongBy setting.now result }
    {
        if names_network(setting) {
            WrongSetting::Network
        } else {
            WrongSetting::Flawed {
                setting,
                flaw: Flaw::of(has_serprog_key(setting), is_serprog_setting(setting)),
            }
        }
    }
}

fn first_wrong(list: &str) -> Option<&str>
    ensures { option_map (λ setting. setting.now) result ≡ first_wrong (pieces_of list.now) }
{
    list.split(',').find(|setting| is_wrong(list, setting))
}

#[tactic(auto, unfolding(crate::specs::Setting::is_wrong))]
fn is_wrong(list: &str, setting: &str) -> bool
    ensures { result ≡ is_wrong (pieces_of list.now) setting.now }
{
    !is_serprog_setting(setting) || !is_alone(list, setting)
}

fn is_serprog_setting(setting: &str) -> bool
    ensures { result ≡ is_serprog_setting setting.now }
{
    let (key, value) = split_setting(setting);
    match key {
        "dev" => !value.is_empty(),
        "spispeed" => read_clock(value).is_some(),
        "cs" => read_select(value).is_some(),
        _ => false,
    }
}

fn has_serprog_key(setting: &str) -> bool
    ensures { result ≡ has_serprog_key setting.now }
{
    let (key, _) = split_setting(setting);
    matches!(key, "dev" | "spispeed" | "cs")
}

fn names_network(setting: &str) -> bool
    ensures { result ≡ names_network setting.now }
{
    let (key, _) = split_setting(setting);
    key == "ip"
}

fn read_select(value: &str) -> Option<u8>
    ensures { result ≡ chip_select_of value.now }
{
    u8::try_from(read_number(value)?).ok()
}

fn refuse_rate(device: &str) -> Result<(), WrongSetting<'_>>
    ensures { MatchResult result (λ _. HasNoRate device.now) (EndsWithRate device.now) }
{
    let Some((name, rate)) = device.rsplit_once(':') else {
        return Ok(());
    };
    if read_number(rate).is_some() {
        Err(WrongSetting::BaudRate { device: name, rate })
    } else {
        Ok(())
    }
}
