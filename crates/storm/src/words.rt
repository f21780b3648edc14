//! The arguments of the command line.

#[derive(Clone, Copy)]
pub struct Job {
    pub seeds: (u64, u64),
    /// The number of the first case of each seed.
    pub first: u64,
    pub count: u64,
}

impl Job {
    /// Parses `SEED COUNT` or `SEED COUNT FIRST`, in which `SEED-LAST` may replace `SEED`. Returns `None` otherwise.
    pub fn of(words: &[String]) -> Option<Job> {
        match words {
            [seeds, count] => Job::of_numbers(seeds.as_str(), count.as_str(), "0"),
            [seeds, count, first] => {
                Job::of_numbers(seeds.as_str(), count.as_str(), first.as_str())
            }
            _ => None,
        }
    }

    fn of_numbers(seeds: &str, count: &str, first: &str) -> Option<Job> {
        let (seed, last) = seeds.split_once('-').unwrap_or((seeds, seeds));
        Some(Job {
            seeds: (number(seed)?, number(last)?),
            first: number(first)?,
            count: number(count)?,
        })
    }
}

fn number(word: &str) -> Option<u64> {
    word.parse::<u64>().ok()
}
