//! The settings in the value of `-p`: `key=value`, separated by commas.
ghost use Rattle.std.specs.Prelude.{◌≡◌, option_map};
ghost use Rattle.nor_args.specs.Programmer.{has_key, is_alone_in, value_in};
ghost use Rattle.nor_args.specs.Text.{key_of, pieces_of, value_of};

/// Returns the value of the first setting in `list` with the key `key`, or `None` if no setting has this key.
pub fn setting_value<'a>(list: &'a str, key: &str) -> Option<&'a str>
    ensures { option_map (λ value. value.now) result ≡ value_in (pieces_of list.now) key.now }
{
    let setting = list.split(',').find(|setting| has_key(setting, key))?;
    let (_, value) = split_setting(setting);
    Some(value)
}

/// Returns whether at most one setting in `list` has the key of `setting`.
pub fn is_alone(list: &str, setting: &str) -> bool
    ensures { result ≡ is_alone_in (pieces_of list.now) setting.now }
{
    let (key, _) = split_setting(setting);
    list.split(',').filter(|other| has_key(other, key)).count() <= 1
}

fn has_key(setting: &str, key: &str) -> bool
    ensures { result ≡ has_key key.now setting.now }
{
    split_setting(setting).0 == key
}

/// Splits a setting at its first `=` into key and value. Without an `=`, the value is empty.
pub fn split_setting(setting: &str) -> (&str, &str)
    ensures { (result.0.now ≡ key_of setting.now) × (result.1.now ≡ value_of setting.now) }
{
    match setting.split_once('=') {
        Some(parts) => parts,
        None => (setting, ""),
    }
}
