//! What a task sees of a communicator.
ghost use Rattle.std.specs.Prelude.{◌≡◌};
ghost use Rattle.node_core.specs.CommsSeen.{view_seen};

use mpc_base::Word;
use mpi_comm::{Comms, View};

/// What a task sees of the communicator that a word names: its number, the task's rank, and its size.
/// None where none lives of that name, or the task is no member.
pub fn view_of(comms: &Comms, task: u32, word: Word) -> Option<View>
    ensures { result ≡ view_seen comms.now task word }
{
    let Word::Comm(number) = word else {
        return None;
    };
    match comms.rank_of(number, task) {
        None => None,
        Some(rank) => match comms.size(number) {
            None => None,
            Some(size) => Some(View {
                comm: number,
                rank,
                size,
            }),
        },
    }
}
