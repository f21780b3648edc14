//! The usage faults 2 to 9 that the options may have.
ghost use Rattle.std.specs.Prelude.{◌≡◌, ◌&&◌, ◌||◌, is_some, not};
ghost use Rattle.nor_args.specs.Given.{asks_change, gives_layout, has_two_layouts, how_many, is_new_content};
ghost use Rattle.nor_args.specs.Given.{layouts_given, operations, progress_of, takes_regions};
ghost use Rattle.nor_args.specs.Faults.{first_fault, has_unneeded, has_unneeded_for_journal, has_wrong_journal};
ghost use Rattle.nor_args.specs.Faults.{has_wrong_regions, has_wrong_value, is_no, lacks_check, passes_test};
ghost use Rattle.nor_args.specs.Faults.{usage_faults};
ghost use Rattle.nor_args.specs.Numbers.{range_of};
ghost use Rattle.nor_args.specs.Programmer.{has_stop, is_programmer_text};
ghost use Rattle.nor_args.specs.Stops.{stops_of};
ghost use Rattle.nor_args.specs.Text.{reads};

use crate::given::Given;
use crate::job::ProgressMode;
use crate::words::UsageFault;

impl Given<'_> {
    ghost use Rattle.nor_args.specs.Given.{texts_of};

    pub(super) fn fault(&self) -> Option<UsageFault>
        ensures { result ≡ first_fault (usage_faults (texts_of self.now)) }
    {
        if self.lacks_programmer() {
            Some(UsageFault::NoProgrammer)
        } else if self.has_wrong_programmer() {
            Some(UsageFault::Programmer)
        } else if self.operations() > 1 {
            Some(UsageFault::TwoOperations)
        } else if self.has_wrong_value() {
            Some(UsageFault::Range)
        } else if self.has_wrong_journal() {
            Some(UsageFault::Journal)
        } else if self.has_wrong_regions() {
            Some(UsageFault::Layout)
        } else if self.has_unneeded() {
            Some(UsageFault::Unneeded)
        } else if self.has_wrong_stops() {
            Some(UsageFault::Stops)
        } else {
            None
        }
    }

    fn lacks_programmer(&self) -> bool
        ensures { result ≡ (not (is_some (texts_of self.now).programmer) && not (texts_of self.now).list) }
    {
        self.programmer.is_none() && !self.list
    }

    fn has_wrong_programmer(&self) -> bool
        ensures { result ≡ is_no is_programmer_text (texts_of self.now).programmer }
    {
        self.programmer.is_some() && self.parsed_programmer().is_none()
    }

    fn has_wrong_value(&self) -> bool
        ensures { result ≡ has_wrong_value (texts_of self.now) }
    {
        self.has_wrong_range() || self.has_wrong_progress() || self.dashed().is_some()
    }

    pub(super) fn has_wrong_range(&self) -> bool
        ensures { result ≡ is_no (reads range_of) (texts_of self.now).wp_range }
    {
        self.wp_range.is_some() && self.parsed_range().is_none()
    }

    pub(super) fn has_wrong_progress(&self) -> bool
        ensures { result ≡ is_no (reads progress_of) (texts_of self.now).progress }
    {
        match self.progress {
            Some(text) => ProgressMode::read(text).is_none(),
            None => false,
        }
    }

    fn has_wrong_stops(&self) -> bool
        ensures { result ≡ (is_no (reads stops_of) (texts_of self.now).rehearse
            || (is_some (texts_of self.now).rehearse && passes_test has_stop (texts_of self.now).programmer)) }
    {
        self.rehearse.is_some() && (self.parsed_stops().is_none() || self.has_stop())
    }

    fn has_stop(&self) -> bool
        ensures { result ≡ passes_test has_stop (texts_of self.now).programmer }
    {
        match self.parsed_programmer() {
            Some(programmer) => programmer.stop.is_some(),
            None => false,
        }
    }

    fn operations(&self) -> usize
        ensures { result ≡ operations (texts_of self.now) }
    {
        let asked = [
            self.list,
            self.flash_size,
            self.flash_name,
            self.wp_status,
            self.wp_list,
            self.read.is_some(),
            self.verify.is_some(),
            self.write.is_some(),
            self.erase,
            self.wp_range.is_some(),
            self.restore.is_some(),
            self.backup.is_some(),
            self.check_journal.is_some(),
            self.wp_enable,
            self.wp_disable,
        ];
        asked.iter().filter(|asked| **asked).count()
    }

    pub(super) fn is_new_content(&self) -> bool
        ensures { result ≡ is_new_content (texts_of self.now) }
    {
        self.write.is_some() || self.erase
    }

    pub(super) fn is_change(&self) -> bool
        ensures { result ≡ asks_change (texts_of self.now) }
    {
        self.is_new_content() || self.wp_range.is_some()
    }

    fn takes_regions(&self) -> bool
        ensures { result ≡ takes_regions (texts_of self.now) }
    {
        self.read.is_some() || self.verify.is_some() || self.is_new_content()
    }

    fn has_wrong_journal(&self) -> bool
        ensures { result ≡ has_wrong_journal (texts_of self.now) }
    {
        match (self.journal, self.rehearse) {
            (None, None) => self.is_change(),
            (Some(_), Some(_)) => true,
            _ => !self.is_change(),
        }
    }

    fn has_unneeded(&self) -> bool
        ensures { result ≡ has_unneeded (texts_of self.now) }
    {
        let (changes, restores) = (self.is_new_content(), self.restore.is_some());
        let unneeded = (self.no_verify_all && !(changes || restores)) || (self.quick && !restores);
        ((self.no_verify || self.unlock) && !changes) || unneeded || self.has_unneeded_for_journal()
    }

    fn has_unneeded_for_journal(&self) -> bool
        ensures { result ≡ has_unneeded_for_journal (texts_of self.now) }
    {
        (self.replaced_chip && self.restore.is_none()) || self.lacks_check()
    }

    pub(super) fn lacks_check(&self) -> bool
        ensures { result ≡ lacks_check (texts_of self.now) }
    {
        self.extract_image.is_some() && self.check_journal.is_none()
    }

    fn has_wrong_regions(&self) -> bool
        ensures { result ≡ has_wrong_regions (texts_of self.now) }
    {
        match (self.gives_layout(), self.names) {
            (false, None) => false,
            (true, Some(_)) => !self.takes_regions() || self.has_two_layouts(),
            _ => true,
        }
    }

    pub(super) fn has_two_layouts(&self) -> bool
        ensures { result ≡ has_two_layouts (texts_of self.now) }
    {
        self.layouts() > 1
    }

    fn layouts(&self) -> usize
        ensures { result ≡ how_many (layouts_given (texts_of self.now)) }
    {
        let given = [
            self.layout.is_some(),
            self.fmap_file.is_some(),
            self.ifd_file.is_some(),
            self.fmap,
            self.ifd,
        ];
        given.iter().filter(|given| **given).count()
    }
}
