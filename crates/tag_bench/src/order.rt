//! What the command line asks for.

/// What is done, round by round.
#[derive(Clone, Copy)]
pub enum Work {
    /// A slot is taken, its job lifted, and the slot given back.
    Slots,
    /// A job is posted, one is taken, and ended.
    Jobs,
}

/// Rounds of a work by one thread, or by two that share a table or a queue.
#[derive(Clone, Copy)]
pub struct Order {
    pub work: Work,
    pub by_two: bool,
    /// The thousands of rounds of each thread.
    pub thousands: u32,
}

impl Order {
    /// The order that all words give. `None` for any other words.
    pub fn read(words: &[String]) -> Option<Order> {
        match words {
            [threads, thousands] => Order::of(Work::Slots, threads, thousands),
            [jobs, threads, thousands] if jobs.as_str() == "jobs" => {
                Order::of(Work::Jobs, threads, thousands)
            }
            _ => None,
        }
    }

    /// The order of so many threads, 1 or 2.
    fn of(work: Work, threads: &str, thousands: &str) -> Option<Order> {
        let by_two = match threads {
            "1" => false,
            "2" => true,
            _ => return None,
        };
        let thousands = thousands.parse::<u32>().ok()?;
        Some(Order {
            work,
            by_two,
            thousands,
        })
    }
}
