//! Finds the first option that names a file `-`. A program for hardware refuses this name, because many other programs
//! read standard input for it.
ghost use Rattle.std.specs.Prelude.{◌≡◌, option_map};
ghost use Rattle.nor_args.specs.Faults.{dashed, file_choices, first_given, has_dash, is_dash, lists_dash};
ghost use Rattle.nor_args.specs.Faults.{passes_test};

use crate::given::Given;
use crate::reasons::OptionName;

impl Given<'_> {
    ghost use Rattle.nor_args.specs.Given.{texts_of};

    pub(super) fn dashed(&self) -> Option<OptionName>
        ensures { result ≡ dashed (texts_of self.now) }
    {
        if self.is_hardware {
            self.first_dashed()
        } else {
            None
        }
    }

    fn first_dashed(&self) -> Option<OptionName>
        ensures { result ≡ first_given (file_choices (texts_of self.now)) }
    {
        match self.file_choices().iter().find(|choice| choice.0) {
            Some(choice) => Some(choice.1),
            None => None,
        }
    }

    fn file_choices(&self) -> [(bool, OptionName); 13]
        ensures { result ≡ file_choices (texts_of self.now) }
    {
        [
            (is_dash(self.read), OptionName::Read),
            (is_dash(self.verify), OptionName::Verify),
            (is_dash(self.write), OptionName::Write),
            (is_dash(self.restore), OptionName::Restore),
            (is_dash(self.backup), OptionName::Backup),
            (is_dash(self.check_journal), OptionName::CheckJournal),
            (is_dash(self.extract_image), OptionName::ExtractImage),
            (is_dash(self.journal), OptionName::Journal),
            (is_dash(self.layout), OptionName::Layout),
            (names_dash(self.names), OptionName::Include),
            (is_dash(self.fmap_file), OptionName::FmapFile),
            (is_dash(self.ifd_file), OptionName::IfdFile),
            (is_dash(self.log), OptionName::Output),
        ]
    }
}

fn is_dash(value: Option<&str>) -> bool
    ensures { result ≡ is_dash (option_map (λ text. text.now) value.entry) }
{
    match value {
        Some(text) => text == "-",
        None => false,
    }
}

fn names_dash(value: Option<&str>) -> bool
    ensures { result ≡ passes_test lists_dash (option_map (λ text. text.now) value.entry) }
{
    match value {
        Some(list) => lists_dash(list),
        None => false,
    }
}

fn lists_dash(list: &str) -> bool
    ensures { result ≡ lists_dash list.now }
{
    list.split(',').any(|piece| has_dash(piece))
}

fn has_dash(piece: &str) -> bool
    ensures { result ≡ has_dash piece.now }
{
    match piece.split_once(':') {
        Some((_, file)) => file == "-",
        None => false,
    }
}
