//! That runs are complete.
ghost use Rattle.jb_board.specs.Laws.{FailsByFaultsAlone, ServesWhatIsThere};

use jb_host::Host;
use jb_run::open_boards_are_served;
use jb_tool::tools_are_complete;

/// Where nothing has failed, no run says that something has, and what is there and opens is served, unless memory is wanting. It
/// computes nothing: its contract is the law.
pub fn runs_are_complete<H: Host>()
    ensures faults { FailsByFaultsAlone H.door_for H.bell_over }
    ensures served { ServesWhatIsThere H.door_for H.bell_over }
{
    open_boards_are_served();
    tools_are_complete();
}
