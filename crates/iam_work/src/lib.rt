//! Work of many grains that threads share without waiting for one another: runs of grains are halved and stolen, and
//! each grain is marked by the one thread that works it.
//!
//! Each thread has a seat with a deque of its own. It pushes runs at the back and pops them at the front, and other
//! threads steal there. Before a grain is worked it is marked, and the mark answers true to one seat alone. Once the
//! threads have ended, `Work::close` takes all seats back and says how many grains were marked.
#![tactic(auto)]

mod close;
mod deque;
mod fault;
mod marks;
mod opening;
mod run;
mod seat;
mod stolen;
mod view;
mod work;

pub use fault::LaneFault;
pub use run::Run;
pub use seat::WorkSeat;
pub use stolen::Stolen;
pub use work::Work;
