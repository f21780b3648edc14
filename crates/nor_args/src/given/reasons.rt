//! For each usage fault that the options may have, its reason: what is wrong with the options.
ghost use Rattle.std.specs.Prelude.{◌≡◌, reverse};
ghost use Rattle.nor_args.specs.Given.{texts_of};
ghost use Rattle.nor_args.specs.Reasons.{IsProgrammerReason, IsReason, IsWrongMode, IsWrongRange, IsWrongStops};
ghost use Rattle.nor_args.specs.Faults.{dashed, first_given};
ghost use Rattle.nor_args.specs.Reasons.{change_option, dash_reason, layout_choices};
ghost use Rattle.nor_args.specs.declared.words.UsageFault.TheVariants.{Range};
ghost use Rattle.nor_args.specs.Reasons.{journal_reason, operation_choices, operations_reason, regions_reason};
ghost use Rattle.nor_args.specs.Reasons.{journal_option_reason, unneeded_reason};

use crate::flaws::programmer_reason;
use crate::given::Given;
use crate::reasons::{OptionName, Reason, WrongArguments};
use crate::stops::{first_unread, read_stops};
use crate::words::UsageFault;

impl<'a> Given<'a> {
    /// Returns `fault` with its reason, which has a meaning only if the options have this fault.
    pub fn explained(&self, fault: UsageFault) -> WrongArguments<'a>
        ensures fault { result.fault ≡ fault }
        ensures reason { IsReason (texts_of self.now) fault result.reason }
    {
        let reason = self.reason(&fault);
        WrongArguments { fault, reason }
    }

    fn reason(&self, fault: &UsageFault) -> Reason<'a>
        ensures { IsReason (texts_of self.now) fault.now result }
    {
        match fault {
            UsageFault::NoProgrammer => Reason::NoProgrammer,
            UsageFault::Programmer => self.programmer_reason(),
            UsageFault::TwoOperations => self.operations_reason(),
            UsageFault::Range => self.value_reason(),
            UsageFault::Journal => self.journal_reason(),
            UsageFault::Layout => self.regions_reason(),
            UsageFault::Unneeded => self.unneeded_reason(),
            UsageFault::Stops => self.stops_reason(),
            UsageFault::Words(_) | UsageFault::Memory => Reason::Unsaid,
        }
    }

    fn programmer_reason(&self) -> Reason<'a>
        ensures { IsProgrammerReason (texts_of self.now).programmer result }
    {
        match self.programmer {
            Some(text) => programmer_reason(text),
            None => Reason::Unsaid,
        }
    }

    fn operations_reason(&self) -> Reason<'a>
        ensures { result ≡ operations_reason (first_given (operation_choices (texts_of self.now)))
            (first_given (reverse (operation_choices (texts_of self.now)))) }
    {
        match (self.first_operation(), self.last_operation()) {
            (Some(first), Some(last)) => Reason::Operations { first, last },
            _ => Reason::Unsaid,
        }
    }

    fn first_operation(&self) -> Option<OptionName>
        ensures { result ≡ first_given (operation_choices (texts_of self.now)) }
    {
        match self.operation_choices().iter().find(|choice| choice.0) {
            Some(choice) => Some(choice.1),
            None => None,
        }
    }

    fn last_operation(&self) -> Option<OptionName>
        ensures { result ≡ first_given (reverse (operation_choices (texts_of self.now))) }
    {
        match self
            .operation_choices()
            .iter()
            .rev()
            .find(|choice| choice.0)
        {
            Some(choice) => Some(choice.1),
            None => None,
        }
    }

    fn operation_choices(&self) -> [(bool, OptionName); 15]
        ensures { result ≡ operation_choices (texts_of self.now) }
    {
        [
            (self.list, OptionName::List),
            (self.flash_size, OptionName::FlashSize),
            (self.flash_name, OptionName::FlashName),
            (self.wp_status, OptionName::WpStatus),
            (self.wp_list, OptionName::WpList),
            (self.read.is_some(), OptionName::Read),
            (self.verify.is_some(), OptionName::Verify),
            (self.write.is_some(), OptionName::Write),
            (self.erase, OptionName::Erase),
            (self.wp_range.is_some(), OptionName::WpRange),
            (self.restore.is_some(), OptionName::Restore),
            (self.backup.is_some(), OptionName::Backup),
            (self.check_journal.is_some(), OptionName::CheckJournal),
            (self.wp_enable, OptionName::WpEnable),
            (self.wp_disable, OptionName::WpDisable),
        ]
    }

    fn value_reason(&self) -> Reason<'a>
        ensures { IsReason (texts_of self.now) Range result }
    {
        if self.has_wrong_progress() {
            self.progress_reason()
        } else if self.has_wrong_range() {
            self.range_reason()
        } else {
            self.dash_reason()
        }
    }

    fn dash_reason(&self) -> Reason<'a>
        ensures { result ≡ dash_reason (dashed (texts_of self.now)) }
    {
        match self.dashed() {
            Some(option) => Reason::Dash(option),
            None => Reason::Unsaid,
        }
    }

    fn progress_reason(&self) -> Reason<'a>
        ensures { IsWrongMode (texts_of self.now).progress result }
    {
        match self.progress {
            Some(value) => Reason::Progress(value),
            None => Reason::Unsaid,
        }
    }

    fn range_reason(&self) -> Reason<'a>
        ensures { IsWrongRange (texts_of self.now).wp_range result }
    {
        match self.wp_range {
            Some(value) => Reason::Range(value),
            None => Reason::Unsaid,
        }
    }

    fn journal_reason(&self) -> Reason<'a>
        ensures { result ≡ journal_reason (texts_of self.now) }
    {
        match (self.journal, self.rehearse) {
            (Some(_), Some(_)) => Reason::JournalAndRehearse,
            _ if self.is_change() => Reason::NoJournal(self.change_option()),
            (Some(_), None) => Reason::NoChange(OptionName::Journal),
            (None, _) => Reason::NoChange(OptionName::Rehearse),
        }
    }

    fn change_option(&self) -> OptionName
        ensures { result ≡ change_option (texts_of self.now) }
    {
        if self.write.is_some() {
            OptionName::Write
        } else if self.erase {
            OptionName::Erase
        } else {
            OptionName::WpRange
        }
    }

    fn regions_reason(&self) -> Reason<'a>
        ensures { result ≡ regions_reason (texts_of self.now) }
    {
        let (first, last) = (self.first_layout(), self.last_layout());
        match (first, last, self.names) {
            (Some(first), Some(last), _) if self.has_two_layouts() => {
                Reason::Operations { first, last }
            }
            (Some(layout), _, Some(_)) => Reason::NoRegions(layout),
            (Some(layout), _, None) => Reason::NoNames(layout),
            (None, _, _) => Reason::NoLayout,
        }
    }

    fn first_layout(&self) -> Option<OptionName>
        ensures { result ≡ first_given (layout_choices (texts_of self.now)) }
    {
        match self.layout_choices().iter().find(|choice| choice.0) {
            Some(choice) => Some(choice.1),
            None => None,
        }
    }

    fn last_layout(&self) -> Option<OptionName>
        ensures { result ≡ first_given (reverse (layout_choices (texts_of self.now))) }
    {
        match self.layout_choices().iter().rev().find(|choice| choice.0) {
            Some(choice) => Some(choice.1),
            None => None,
        }
    }

    fn layout_choices(&self) -> [(bool, OptionName); 5]
        ensures { result ≡ layout_choices (texts_of self.now) }
    {
        [
            (self.layout.is_some(), OptionName::Layout),
            (self.fmap_file.is_some(), OptionName::FmapFile),
            (self.ifd_file.is_some(), OptionName::IfdFile),
            (self.fmap, OptionName::Fmap),
            (self.ifd, OptionName::Ifd),
        ]
    }

    fn unneeded_reason(&self) -> Reason<'a>
        ensures { result ≡ unneeded_reason (texts_of self.now) }
    {
        if self.is_new_content() {
            self.journal_option_reason()
        } else if self.no_verify {
            Reason::NoContent(OptionName::NoVerify)
        } else if self.no_verify_all && self.restore.is_none() {
            Reason::NoComparison
        } else if self.unlock {
            Reason::NoContent(OptionName::Unlock)
        } else {
            self.journal_option_reason()
        }
    }

    fn journal_option_reason(&self) -> Reason<'a>
        ensures { result ≡ journal_option_reason (texts_of self.now) }
    {
        if self.lacks_check() {
            Reason::NoCheck
        } else if self.quick && self.restore.is_none() {
            Reason::NoRestore(OptionName::Quick)
        } else {
            Reason::NoRestore(OptionName::ReplacedChip)
        }
    }

    fn stops_reason(&self) -> Reason<'a>
        ensures { IsWrongStops (texts_of self.now).rehearse result }
    {
        let Some(text) = self.rehearse else {
            return Reason::Unsaid;
        };
        match first_unread(text) {
            Some(part) => Reason::Stop(part),
            None if read_stops(text).is_none() => Reason::ManyStops,
            None => Reason::StopAndRehearse,
        }
    }
}
