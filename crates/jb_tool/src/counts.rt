//! How many commands were answered, by what they were.
ghost use Rattle.std.specs.Prelude.{◌≡◌, ◌+◌, ◌-◌, ◌<◌, ◌≤◌, ◌^◌};
ghost use Rattle.jb_tool.specs.LoadRuns.{answers_in};
ghost use Rattle.jb_tool.specs.Workload.{kills_in, posts_in, reads_in};

use jb_model::Reply;

/// How many commands were answered as a post, as a reading and as a kill.
#[derive(Clone, Copy)]
pub(crate) struct Counts {
    pub posts: u32,
    pub reads: u32,
    pub kills: u32,
}

impl Counts {
    /// None.
    pub(crate) fn new() -> Counts
        ensures posts { result.posts ≡ 0 }
        ensures reads { result.reads ≡ 0 }
        ensures kills { result.kills ≡ 0 }
    {
        Counts {
            posts: 0,
            reads: 0,
            kills: 0,
        }
    }

    /// Counts one more answer.
    pub(crate) fn count(&mut self, reply: &Reply)
        requires few { answers_in self.old < 2 ^ 32 - 1 }
        ensures posts { self.new.posts ≡ self.old.posts + posts_in reply.now }
        ensures reads { self.new.reads ≡ self.old.reads + reads_in reply.now }
        ensures kills { self.new.kills ≡ self.old.kills + kills_in reply.now }
        ensures few { answers_in self.new ≤ answers_in self.old + 1 }
    {
        match reply {
            Reply::Posted { .. } => self.posts += 1,
            Reply::Text { .. } => self.reads += 1,
            Reply::Killed { .. } => self.kills += 1,
            _ => {}
        }
    }
}
