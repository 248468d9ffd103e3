//! What the collector keeps of rings: its windows and its positions.

ghost use Rattle.std.specs.Prelude.{◌≡◌, ◌<◌, ◌+◌, slice_index, slice_set};
ghost use Rattle.mako_ring.specs.Contents.{after_place};
ghost use Rattle.mako_ring.specs.Windows.{tail_up, head_up, found_room, IsWindow};
ghost use Rattle.mako_pause.specs.Collecting.{at, window_of, set_window};
ghost use Rattle.mako_pause.specs.Keeping.{EmptyIsKnown};

use crate::kept::Kept;
use mako_ring::{Window, next_place};

impl Kept {
    /// The window of a server's work ring.
    pub(crate) fn window(&self, server: u32) -> Window
        requires { server < self.now.shape.servers }
        ensures window { result ≡ window_of self.now server }
        ensures bounds { IsWindow self.now.shape.ring result }
    {
        self.windows[server as usize]
    }

    fn set_window(&mut self, server: u32, window: Window)
        requires server { server < self.old.shape.servers }
        requires bounds { IsWindow self.old.shape.ring window }
        ensures { self.new ≡ set_window self.old server window }
    {
        self.windows[server as usize] = window;
    }

    /// The slot at the head of a server's work ring was found empty.
    pub(crate) fn found_room(&mut self, server: u32)
        requires { server < self.old.shape.servers }
        ensures { self.new ≡ set_window self.old server (found_room self.old.shape.ring (window_of self.old server)) }
    {
        let window = self
            .window(server)
            .found_room(u64::from(self.numbers().ring));
        self.set_window(server, window);
    }

    /// A name was put into a server's work ring.
    pub(crate) fn head_up(&mut self, server: u32)
        requires server { server < self.old.shape.servers }
        requires room { (window_of self.old server).head < (window_of self.old server).tail + self.old.shape.ring }
        ensures { self.new ≡ set_window self.old server (head_up (window_of self.old server)) }
    {
        let window = self.window(server).head_up(u64::from(self.numbers().ring));
        self.set_window(server, window);
    }

    /// The slot at the tail of a server's work ring was found empty.
    pub(crate) fn tail_up(&mut self, server: u32)
        requires known { EmptyIsKnown self.old server }
        ensures { self.new ≡ set_window self.old server (tail_up self.old.shape.ring (window_of self.old server)) }
    {
        let window = self.window(server).tail_up(u64::from(self.numbers().ring));
        self.set_window(server, window);
    }

    /// The position in a mutator's barrier ring.
    pub(crate) fn barrier_at(&self, mutator: u32) -> u32
        requires { mutator < self.now.shape.mutators }
        ensures at { result ≡ slice_index self.now.barrier_at mutator }
        ensures below { result < self.now.shape.ring }
    {
        self.barrier_at[mutator as usize] as u32
    }

    fn set_barrier(&mut self, mutator: u32, at: u64)
        requires mutator { mutator < self.old.shape.mutators }
        requires below { at < self.old.shape.ring }
        ensures { self.new ≡ record self.old { barrier_at = slice_set self.old.barrier_at mutator at } }
    {
        self.barrier_at[mutator as usize] = at;
    }

    /// A name was taken from a mutator's barrier ring.
    pub(crate) fn barrier_up(&mut self, mutator: u32)
        requires { mutator < self.old.shape.mutators }
        ensures { self.new ≡ record self.old {
          barrier_at =
              slice_set self.old.barrier_at mutator
              (after_place self.old.shape.ring (slice_index self.old.barrier_at mutator));
        } }
    {
        let at = next_place(
            u64::from(self.numbers().ring),
            u64::from(self.barrier_at(mutator)),
        );
        self.set_barrier(mutator, at);
    }

    /// The position in a server's notice ring.
    pub(crate) fn notice_at(&self, server: u32) -> u32
        requires { server < self.now.shape.servers }
        ensures at { result ≡ slice_index self.now.notice_at server }
        ensures below { result < self.now.shape.ring }
    {
        self.notice_at[server as usize] as u32
    }

    fn set_notice(&mut self, server: u32, at: u64)
        requires server { server < self.old.shape.servers }
        requires below { at < self.old.shape.ring }
        ensures { self.new ≡ record self.old { notice_at = slice_set self.old.notice_at server at } }
    {
        self.notice_at[server as usize] = at;
    }

    /// A notice was taken from a server's notice ring.
    pub(crate) fn notice_up(&mut self, server: u32)
        requires { server < self.old.shape.servers }
        ensures { self.new ≡ record self.old {
          notice_at =
              slice_set self.old.notice_at server
              (after_place self.old.shape.ring (slice_index self.old.notice_at server));
        } }
    {
        let at = next_place(
            u64::from(self.numbers().ring),
            u64::from(self.notice_at(server)),
        );
        self.set_notice(server, at);
    }
}
