// The board of standing entries.
ghost use Rattle.std.specs.Prelude.{◌≡◌};
ghost use Rattle.entry_board.specs.Board.{board_code, board_from_left};

// Marks each standing insertion with 1 and every other entry with 0: 0, or 21 and nothing written where the lists are unequal.
#[unsafe(no_mangle)]
pub extern "C" fn kozbrax_board(targets: &[u32], standing: &mut [u32]) -> u32
    ensures { (result ≡ board_code targets.now standing.old)
        × (standing.new ≡ board_from_left 1 targets.now standing.old) }
{
    entry_board::board(targets, standing)
}
