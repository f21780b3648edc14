//! The values of the options, and the job that they ask for or their first usage fault.
ghost use Rattle.std.specs.Prelude.{◌≡◌, None, Some, codes, false, is_some, true, option_map, option_and_then};
ghost use Rattle.std.specs.Prelude.{MatchOption, MatchResult};
ghost use Rattle.std.specs.Option.{IsSomeAnd};
ghost use Rattle.clap.specs.Words.{found_of, rows_of};
ghost use Rattle.nor_args.specs.Given.{given_in, hardware_given_in, joined_in, operations, is_new_content, asks_change};
ghost use Rattle.nor_args.specs.Given.{takes_regions};
ghost use Rattle.nor_args.specs.Given.{progress_mode, progress_of, srp0_of};
ghost use Rattle.nor_args.specs.Faults.{first_fault, has_unneeded, has_wrong_journal, has_wrong_regions, is_no};
ghost use Rattle.nor_args.specs.Faults.{operation_faults, passes_test, usage_faults};
ghost use Rattle.nor_args.specs.Job.{IsAsked, IsHardwareAsked, IsJournalUse, IsOperation, IsRegions, IsTask};
ghost use Rattle.nor_args.specs.Job.{IsWantedByArguments, IsWrongForHardware, IsWrongOperation, name_in_any_case};
ghost use Rattle.nor_args.specs.Numbers.{range_of};
ghost use Rattle.nor_args.specs.Programmer.{IsProgrammer, has_stop, is_programmer_text};
ghost use Rattle.nor_args.specs.Stops.{stops_of};
ghost use Rattle.nor_args.specs.Text.{reads};

use crate::given::flags::is_set;
use crate::job::{
    Change, ChipJob, HardwareJob, Job, JournalUse, Operation, ProgrammerJob, ProgressMode, Regions,
    Task, Wanted,
};
use crate::numbers::read_range;
use crate::programmer::Programmer;
use crate::reasons::WrongArguments;
use crate::stops::{MOST_STOPS, read_stops};
use crate::words::UsageFault;
use arrayvec::ArrayVec;
use clap::ArgMatches;
use nor_probe::ChipName;

mod dashes;
mod faults;
mod flags;
mod layouts;
mod names;
mod other_names;
mod reasons;

pub use names::{chip_named, joined_names};

// A correct value of `-p`, with which the other options of a program for hardware are checked.
const ANY_CHIP: &str = "dummy:emulate=TINY64";

/// The values of the options (`None` or false if an option isn't given), and whether the program is one for hardware.
#[derive(Clone, Copy)]
pub struct Given<'a> {
    programmer: Option<&'a str>,
    chip: Option<&'a str>,
    list: bool,
    flash_size: bool,
    flash_name: bool,
    wp_status: bool,
    wp_list: bool,
    read: Option<&'a str>,
    verify: Option<&'a str>,
    write: Option<&'a str>,
    erase: bool,
    wp_range: Option<&'a str>,
    restore: Option<&'a str>,
    backup: Option<&'a str>,
    check_journal: Option<&'a str>,
    extract_image: Option<&'a str>,
    wp_enable: bool,
    wp_disable: bool,
    quick: bool,
    replaced_chip: bool,
    layout: Option<&'a str>,
    fmap_file: Option<&'a str>,
    ifd_file: Option<&'a str>,
    fmap: bool,
    ifd: bool,
    names: Option<&'a str>,
    no_verify: bool,
    no_verify_all: bool,
    unlock: bool,
    journal: Option<&'a str>,
    rehearse: Option<&'a str>,
    progress: Option<&'a str>,
    verbose: bool,
    log: Option<&'a str>,
    is_hardware: bool,
}

impl<'a> Given<'a> {
    ghost use Rattle.nor_args.specs.Given.{texts_of};

    /// Collects flashnor's options from the result of `clap`. All options that flashnor lacks get `None` or false.
    pub fn of(matches: &ArgMatches<'a>) -> Given<'a>
        ensures { texts_of result ≡ given_in (rows_of (found_of matches.now)) }
    {
        Given {
            programmer: matches.get_str("programmer"),
            chip: matches.get_str("chip"),
            list: is_set(matches, "list"),
            flash_size: is_set(matches, "flash-size"),
            flash_name: false,
            wp_status: is_set(matches, "wp-status"),
            wp_list: is_set(matches, "wp-list"),
            read: matches.get_str("read"),
            verify: matches.get_str("verify"),
            write: matches.get_str("write"),
            erase: is_set(matches, "erase"),
            wp_range: matches.get_str("wp-range"),
            restore: matches.get_str("restore"),
            backup: None,
            check_journal: None,
            extract_image: None,
            wp_enable: false,
            wp_disable: false,
            quick: false,
            replaced_chip: false,
            layout: matches.get_str("layout"),
            fmap_file: None,
            ifd_file: None,
            fmap: false,
            ifd: false,
            names: matches.get_str("include"),
            no_verify: is_set(matches, "noverify"),
            no_verify_all: false,
            unlock: is_set(matches, "unlock"),
            journal: matches.get_str("journal"),
            rehearse: matches.get_str("rehearse"),
            progress: None,
            verbose: false,
            log: None,
            is_hardware: false,
        }
    }

    /// Collects the options of a program for hardware from the result of `clap`. `names` must come from `joined_names`.
    pub fn of_hardware(matches: &ArgMatches<'a>, names: Option<&'a str>) -> Given<'a>
        requires { option_map (λ text. text.now) names
            ≡ joined_in (rows_of (found_of matches.now)) (codes "include") }
        ensures { texts_of result ≡ hardware_given_in (rows_of (found_of matches.now)) }
    {
        Given {
            rehearse: None,
            flash_name: is_set(matches, "flash-name"),
            backup: matches.get_str("backup"),
            check_journal: matches.get_str("check-journal"),
            extract_image: matches.get_str("extract-image"),
            wp_enable: is_set(matches, "wp-enable"),
            wp_disable: is_set(matches, "wp-disable"),
            quick: is_set(matches, "quick"),
            replaced_chip: is_set(matches, "replaced-chip"),
            fmap_file: matches.get_str("fmap-file"),
            ifd_file: matches.get_str("ifd-file"),
            fmap: is_set(matches, "fmap"),
            ifd: is_set(matches, "ifd"),
            names,
            no_verify_all: is_set(matches, "noverify-all"),
            progress: matches.get_str("progress"),
            verbose: matches.get_count("verbose") > 0,
            log: matches.get_str("output"),
            is_hardware: true,
            ..Given::of(matches)
        }
    }

    /// Returns the job that the options ask for, or the first of the faults 2 to 9. `--check-journal` must be absent.
    pub fn job(self) -> Result<Job<'a>, UsageFault>
        requires { (texts_of self).check_journal ≡ None }
        ensures { MatchResult result
            (λ job. (first_fault (usage_faults (texts_of self.entry)) ≡ None) × IsAsked (texts_of self.entry) job)
            (λ fault. first_fault (usage_faults (texts_of self.entry)) ≡ Some fault) }
    {
        if let Some(fault) = self.fault() {
            return Err(fault);
        }
        match self.parsed_programmer() {
            Some(programmer) if !self.list => Ok(Job::Chip(ChipJob {
                programmer,
                named: self.chip.map(ChipName::of),
                task: self.task(),
            })),
            _ => Ok(Job::List),
        }
    }

    /// Returns the job of a program for hardware. `named` must be the result of `chip_named`. Returns fault 2 if `-p`,
    /// `--check-journal` and `-L` are all missing. With `--check-journal` or `-L`, returns the first of the faults 4 to
    /// 9 if the options have one. Without these two options, that fault is part of the job.
    pub fn hardware_job(
        self,
        named: Option<ChipName>,
    ) -> Result<HardwareJob<'a>, WrongArguments<'a>>
        requires { named ≡ option_map name_in_any_case (texts_of self).chip }
        ensures { MatchResult result (IsHardwareAsked (texts_of self.entry))
            (IsWrongForHardware (texts_of self.entry)) }
    {
        if self.check_journal.is_none() && !self.list {
            return match self.programmer {
                Some(programmer) => Ok(HardwareJob::Chip(ProgrammerJob {
                    programmer,
                    operation: self.operation(named),
                })),
                None => Err(self.explained(UsageFault::NoProgrammer)),
            };
        }
        if let Some(fault) = self.emulated().fault() {
            return Err(self.explained(fault));
        }
        match self.check_journal {
            Some(file) => Ok(HardwareJob::CheckJournal {
                file,
                image: self.extract_image,
            }),
            None => Ok(HardwareJob::List),
        }
    }

    fn operation(self, named: Option<ChipName>) -> Result<Operation<'a>, WrongArguments<'a>>
        requires { (self.list ≡ false) × ((texts_of self).check_journal ≡ None)
            × (named ≡ option_map name_in_any_case (texts_of self).chip) }
        ensures { MatchResult result (IsOperation (texts_of self.entry)) (IsWrongOperation (texts_of self.entry)) }
    {
        match self.emulated().job() {
            Ok(Job::Chip(ChipJob { task, .. })) => Ok(Operation {
                named,
                verifies_all: !self.no_verify_all,
                is_quick: self.quick,
                is_replaced_chip: self.replaced_chip,
                is_backup: self.backup.is_some(),
                is_flash_name: self.flash_name,
                srp0: self.srp0(),
                progress: self.progress_mode(),
                is_verbose: self.verbose,
                log: self.log,
                task,
            }),
            Ok(Job::List) => Err(self.explained(UsageFault::TwoOperations)),
            Err(fault) => Err(self.explained(fault)),
        }
    }

    fn emulated(&self) -> Given<'a>
        ensures { texts_of result
            ≡ record (texts_of self.now) { programmer = Some (codes "dummy:emulate=TINY64") } }
    {
        Given {
            programmer: Some(ANY_CHIP),
            ..*self
        }
    }

    fn srp0(&self) -> Option<bool>
        ensures { result ≡ srp0_of (texts_of self.now) }
    {
        if self.wp_enable {
            Some(true)
        } else if self.wp_disable {
            Some(false)
        } else {
            None
        }
    }

    fn progress_mode(&self) -> ProgressMode
        ensures { result ≡ progress_mode (texts_of self.now) }
    {
        match self.progress {
            Some(text) => ProgressMode::read(text).unwrap_or(ProgressMode::Auto),
            None => ProgressMode::Auto,
        }
    }

    #[tactic(auto, using(crate::proofs::OptionValues::means_read))]
    fn parsed_programmer(&self) -> Option<Programmer<'a>>
        ensures { MatchOption result (passes_test is_programmer_text (texts_of self.now).programmer ≡ false)
            (λ programmer. IsSomeAnd (texts_of self.now).programmer (λ text. IsProgrammer text programmer)) }
    {
        self.programmer.and_then(Programmer::read)
    }

    #[tactic(auto, using(crate::proofs::Begins::and_then_read))]
    fn parsed_range(&self) -> Option<(u32, u32)>
        ensures { option_and_then range_of (texts_of self.now).wp_range ≡ result }
    {
        self.wp_range.and_then(read_range)
    }

    #[tactic(auto, using(crate::proofs::OptionValues::viewed_read))]
    fn parsed_stops(&self) -> Option<ArrayVec<u64, MOST_STOPS>>
        ensures { option_and_then stops_of (texts_of self.now).rehearse ≡ option_map (λ stops. stops.items) result }
    {
        self.rehearse.and_then(read_stops)
    }

    fn task(&self) -> Task<'a>
        requires { ((texts_of self.now).list ≡ false) × ((texts_of self.now).check_journal ≡ None)
            × (first_fault (usage_faults (texts_of self.now)) ≡ None) }
        ensures { IsTask (texts_of self.now) result }
    {
        let Some(wanted) = self.wanted() else {
            return self.plain_task();
        };
        Task::Change(Change {
            wanted,
            regions: self.regions(),
            unlock: self.unlock,
            verify: !self.no_verify,
            journal_use: self.journal_use(),
        })
    }

    fn wanted(&self) -> Option<Wanted<'a>>
        ensures { MatchOption result ((is_new_content (texts_of self.now) ≡ false)
            × (option_and_then range_of (texts_of self.now).wp_range ≡ None))
            (IsWantedByArguments (texts_of self.now)) }
    {
        match (self.write, self.parsed_range()) {
            (Some(image), _) => Some(Wanted::Write { image }),
            (None, Some((start, len))) => Some(Wanted::Range { start, len }),
            (None, None) if self.erase => Some(Wanted::Erase),
            (None, None) => None,
        }
    }

    // Without `--journal`, the value of `--rehearse` is a correct list of stops, so the `unwrap` can't fail.
    fn journal_use(&self) -> JournalUse<'a>
        requires { (texts_of self.now).journal ≡ None
            → is_some (option_and_then stops_of (texts_of self.now).rehearse) ≡ true }
        ensures { IsJournalUse (texts_of self.now) result }
    {
        match self.journal {
            Some(file) => JournalUse::Journal { file },
            None => JournalUse::Rehearse {
                stops: self.parsed_stops().unwrap(),
            },
        }
    }

    fn regions(&self) -> Option<Regions<'a>>
        requires { has_wrong_regions (texts_of self.now) ≡ false }
        ensures { IsRegions (texts_of self.now) result }
    {
        match self.names {
            Some(names) => Some(Regions {
                layout: self.layout_file(),
                form: self.layout_form(),
                names,
            }),
            None => None,
        }
    }

    fn plain_task(&self) -> Task<'a>
        requires { ((texts_of self.now).list ≡ false) × ((texts_of self.now).check_journal ≡ None)
            × (asks_change (texts_of self.now) ≡ false)
            × (has_wrong_regions (texts_of self.now) ≡ false) }
        ensures { IsTask (texts_of self.now) result }
    {
        let regions = self.regions();
        match (self.read.or(self.backup), self.verify, self.restore) {
            (Some(file), _, _) => Task::Read { file, regions },
            (None, Some(file), _) => Task::Verify { file, regions },
            (None, None, Some(journal)) => Task::Restore { journal },
            (None, None, None) if self.flash_size => Task::FlashSize,
            (None, None, None) if self.wp_status => Task::WpStatus,
            (None, None, None) if self.wp_list => Task::WpList,
            (None, None, None) => Task::Probe,
        }
    }
}
