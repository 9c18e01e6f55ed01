// How tiles are dealt out to workers that begin, each with a run of its own.
ghost use Rattle.std.specs.Prelude.{◌≡◌, ◌+◌, ◌<◌, ◌≤◌};
ghost use Rattle.iam_crew.specs.Code.Runs.{IsShare};
ghost use Rattle.iam_crew.specs.Code.Shares.{start_of};

use iam_lanes::Run;

/// So many tiles, dealt out to so many workers: each has a run of tiles, and no two differ by more than one.
#[derive(Clone, Copy)]
pub struct Shares {
    pub tiles: u64,
    pub workers: u32,
    ghost some: { 1 ≤ workers },
    ghost few: { workers ≤ 64 },
    ghost few_tiles: { tiles ≤ 4096 },
}

impl Shares {
    // The first tile of a worker. At the number of workers it is the number of tiles.
    #[tactic(auto, unfolding(crate::specs::Code::Shares::start_of))]
    fn start(self, worker: u32) -> u64
        requires { worker ≤ self.workers }
        ensures { result ≡ start_of self.tiles self.workers worker }
    {
        u64::from(worker) * self.tiles / u64::from(self.workers)
    }

    /// The run of a worker, which is empty where there are more workers than tiles.
    pub fn run_of(self, worker: u32) -> Run
        requires { worker < self.workers }
        ensures share { IsShare self.tiles self.workers worker result }
        ensures inside { result.first + result.count ≤ self.tiles }
    {
        let first = self.start(worker);
        let end = self.start(worker + 1);
        Run {
            first,
            count: end - first,
        }
    }
}
