// What a line of a gate script does, but for what the manager answers to an event: the steps of a run.
#![tactic(auto)]

use gateanswers::{print_settings, print_state};
use gatescript::{Command, Event};
use textlines::{Page, Wrong};
use words::Words;

// Outputs of so many octets are lent from a settings line on.
const WIDTH: usize = 524288;

// Where a run stands: no settings line has come; the last one was refused, so that there is no manager; no event came since it; or some did.
#[derive(Clone, Copy, PartialEq, Eq)]
enum Stage {
    Bare,
    Refused,
    Fresh,
    Used,
}

impl Stage {
    fn has_manager(self) -> bool {
        matches!(self, Stage::Fresh | Stage::Used)
    }

    fn follows_settings(self) -> bool {
        matches!(self, Stage::Refused | Stage::Fresh)
    }
}

// What goes from line to line beside the memory that is lent: how many octets the store and the outputs have, and where the run stands.
#[derive(Clone, Copy)]
pub struct Run {
    pub stored: usize,
    pub width: usize,
    stage: Stage,
}

impl Run {
    // No script has begun.
    fn new() -> Run {
        Run {
            stored: 0,
            width: WIDTH,
            stage: Stage::Bare,
        }
    }
}

// The manager's words, the memory of its store and of its outputs, and the run on them. A later line may lend more of either: so the run has
// their counts, and these are no shorter slices.
#[derive(Drop)]
pub struct Desk<'a> {
    pub words: &'a mut Words,
    pub store: &'a mut [u8],
    pub output: &'a mut [u8],
    pub run: Run,
}

impl<'a> Desk<'a> {
    pub fn new(words: &'a mut Words, store: &'a mut [u8], output: &'a mut [u8]) -> Desk<'a> {
        Desk {
            words,
            store,
            output,
            run: Run::new(),
        }
    }

    // Lends the manager so much of the store, all of it zeros.
    fn lend_store(&mut self, octets: usize) -> Result<(), Wrong> {
        self.store.get_mut(..octets).ok_or(Wrong)?.fill(0);
        self.run.stored = octets;
        Ok(())
    }

    // A refused settings line leaves no manager until the next; an accepted one a fresh manager. C reads what is loaded: a refusal there
    // is a number, 0 for none.
    fn set(&mut self, octets: &[u8], page: &mut Page<'_>) -> Result<(), Wrong> {
        let loaded = settings::load(octets);
        if loaded.refusal != 0 {
            print_settings(page, loaded.refusal, 0);
            self.run.stage = Stage::Refused;
            return Ok(());
        }
        let fresh = loaded.words;
        *self.words = fresh;
        let regions = judging::regions_of(self.words);
        self.lend_store(regions)?;
        self.run.width = WIDTH;
        self.run.stage = Stage::Fresh;
        print_settings(page, 0, words::count_of(self.words));
        Ok(())
    }

    // A store of so many octets, if no event came since the settings line.
    fn set_store(&mut self, octets: usize) -> Result<(), Wrong> {
        if !self.run.stage.follows_settings() {
            return Err(Wrong);
        }
        self.lend_store(octets)
    }

    // Outputs of so many octets.
    fn set_width(&mut self, octets: usize) -> Result<(), Wrong> {
        if WIDTH < octets {
            return Err(Wrong);
        }
        self.run.width = octets;
        Ok(())
    }

    // The state and any event need a manager.
    fn need_manager(&self) -> Result<(), Wrong> {
        if self.run.stage.has_manager() {
            Ok(())
        } else {
            Err(Wrong)
        }
    }

    // Carries out what a line asks for, up to an event, which is then due on the manager.
    pub fn carry_out<'e>(
        &mut self,
        command: Command<'e>,
        page: &mut Page<'_>,
    ) -> Result<Option<Event<'e>>, Wrong> {
        match command {
            Command::Comment => {}
            Command::Settings(octets) => self.set(octets, page)?,
            Command::Store(octets) => self.set_store(octets)?,
            Command::Width(octets) => self.set_width(octets)?,
            Command::Happening(event) => {
                self.need_manager()?;
                self.run.stage = Stage::Used;
                return Ok(Some(event));
            }
            Command::State => {
                self.need_manager()?;
                print_state(page, self.words);
            }
        }
        Ok(None)
    }
}
