//! The lines for a value of `-p` that describes no programmer.

use crate::programmer_fault::STTY_ARGUMENTS;
use crate::setting::WrongSetting;
use board_files::Quoted;
use nor_args::{Flaw, split_setting};
use nor_console::{Escaped, text_of_flaw};
use std::fmt;

impl fmt::Display for WrongSetting<'_> {
    fn fmt<W: fmt::Write>(&self, f: &mut fmt::Formatter<W>) -> fmt::Result {
        match self {
            WrongSetting::Network => {
                f.write_str("error: ip= is not supported; give a device: -p serprog:dev=PATH\n")
            }
            WrongSetting::BaudRate { device, rate } => match Quoted::new(device) {
                Some(device) => writeln!(
                    f,
                    "error: dev= takes no baud rate; set it with stty: stty -F {device} {rate} {STTY_ARGUMENTS}"
                ),
                None => f.write_str("error: dev= takes no baud rate; set it with stty\n"),
            },
            WrongSetting::NoPrefix => {
                f.write_str("error: the value of -p does not begin with 'serprog:'\n")
            }
            WrongSetting::Flawed { setting: "", .. } => f.write_str(
                "error: a setting in -p is empty; give serprog:dev=PATH, with commas only between settings\n",
            ),
            WrongSetting::Flawed { setting, flaw } => {
                let (wrong, choices) = (text_of_flaw(*flaw), choices_for(setting, *flaw));
                writeln!(f, "error: {wrong} in -p: '{}'{choices}", Escaped(setting))
            }
            WrongSetting::NoDevice => f.write_str("error: the value of -p lacks dev=\n"),
        }
    }
}

fn choices_for(setting: &str, flaw: Flaw) -> &'static str {
    let (key, _) = split_setting(setting);
    match flaw {
        Flaw::Key => "; the keys are dev, spispeed and cs",
        Flaw::Value if key == "spispeed" => {
            "; give hertz in decimal, 1 to 4294967295, or for example 500k or 16M"
        }
        Flaw::Value if key == "cs" => "; give a number from 0 to 255",
        _ => "",
    }
}
