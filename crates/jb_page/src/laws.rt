//! What is true of all that a pager sends.
ghost use Rattle.jb_page.specs.Serials.{SerialsAlwaysRise};

/// The pages that a pager put into all queues have the serial numbers 1, 2, 3 and on, each once, and they rise in each queue.
///
/// It computes nothing: its contract is the law.
pub fn serials_rise()
    ensures { SerialsAlwaysRise }
{}
