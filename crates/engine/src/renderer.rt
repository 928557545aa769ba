//! A scene while it is rendered, block by block.

ghost use Rattle.std.specs.Prelude.{◌≡◌, ◌<◌, ◌≤◌, ◌+◌, ◌*◌, ℕ, ℤ, List, None, Some, true, false, length, IfOk, IfSome, IfErr, IsSome, IsSomeAnd, OnOk, OnErr};
ghost use Rattle.clip_decode.specs.Frames.{interleaved};
ghost use Rattle.mix_model.specs.Mix.{frames_from};
ghost use Rattle.resource_mgr.specs.Tapes.{AreLater};
ghost use Rattle.engine.specs.Playing.{IsBefore, IsBlock};
ghost use Rattle.engine.specs.RendererData.{IsAtBlock, IsNeedOf, at_first_frame, clips_heard};
ghost use Rattle.engine.specs.Span.{node_places};

use crate::feeds::NODE_PLACES;
use crate::need::Need;
use crate::playback::Playback;
use plain_data::OutOfMemory;
use resource_mgr::Tape;
use scene_model::Scene;
use std::alloc::Global;
use std::marker::Model;

/// Renders a scene in blocks of 512 frames, or fewer where the next edit falls or the scene ends: `step` says how many
/// frames the next block has, `ready` whether all pages that it reads are shown, and `block` gives it.
///
/// Contracts see it as the `scene`, the `tapes` of its resources, the number of the next frame
/// (`clock`), the frames of the next block, once `step` said them (`next`), and whether it is `ready`.
#[derive(Drop)]
pub struct Renderer {
    playback: Playback,
    clock: u32,
    next: Option<u32>,
    ready: bool,
    /// The samples of the next block, as far as it is rendered.
    samples: Vec<i32>,
}

impl Model for Renderer {
    ghost use Rattle.engine.specs.RendererData.{RendererData, IsRenderer};

    ghost Value = { RendererData };

    ghost view = { λ r. record { scene = r.playback.scene.value; tapes = r.playback.tapes.items; clock = r.clock; next = r.next; ready = r.ready } };

    ghost invariant = { λ r. IsRenderer r.playback r.clock r.next r.ready r.samples.items };
}

impl Renderer {
    /// A scene before its first frame. The tapes are those of its resources, in their order. None of their pages is
    /// asked for yet.
    ///
    /// # Errors
    ///
    /// [`OutOfMemory`] where there is no memory; nothing has changed then.
    pub fn open(alloc: Global, scene: &Scene, tapes: Vec<Tape>) -> Result<Renderer, OutOfMemory>
        ensures { IfOk result (λ r. r ≡ at_first_frame scene.now tapes.items) }
    {
        let playback = Playback::open(alloc, scene, tapes)?;
        let samples = vec![in alloc; 0i32; NODE_PLACES]?;
        Ok(Renderer {
            playback,
            clock: 0,
            next: None,
            ready: false,
            samples,
        })
    }

    /// The number of the next frame: the frames of the blocks so far.
    pub fn clock(&self) -> u32
        ensures { result ≡ self.now.clock }
    {
        self.clock
    }

    /// Makes the edits that are due, and answers the frames of the next block, 1 to 512: it ends where
    /// the next edit falls or the scene ends. 0 exactly at the scene's end. A second call before
    /// `block` answers the same. It takes no memory, and waits for nobody.
    pub fn step(&mut self) -> u32
        ensures block { self.old.clock < self.old.scene.length → IsBlock self.old.scene self.old.clock result }
        ensures end { self.old.clock ≡ self.old.scene.length → result ≡ 0 }
        ensures within { self.old.clock + result ≤ self.old.scene.length }
        ensures next { self.new ≡ record self.old { next = Some result } }
    {
        if let Some(frames) = self.next {
            return frames;
        }
        let frames = self.playback.step();
        self.next = Some(frames);
        frames
    }

    /// Asks for the pages that the block which `step` said reads: those of the frames of the files that the sounds play which are
    /// pulled in it. It renders the block as far as they are shown, so a later call goes on where this one
    /// stopped. It takes no memory, and waits for nobody.
    ///
    /// # Errors
    ///
    /// [`Need`] where the block reads a page that its tape wasn't shown, since the number of pages that this call found shown is
    /// at most the page's; with that number.
    pub fn ready(&mut self) -> Result<(), Need>
        requires { IsSome self.old.next }
        ensures ok { OnOk result (self.new ≡ record self.old { tapes = self.new.tapes; ready = true }) }
        ensures err { OnErr result (self.new ≡ record self.old { tapes = self.new.tapes }) }
        ensures tapes { AreLater self.old.tapes self.new.tapes }
        ensures need { IfErr result (λ need. IfSome self.old.next (λ frames. IsNeedOf self.old self.new frames need)) }
    {
        let Some(frames) = self.next else {
            return Ok(())
        };
        if self.ready {
            return Ok(());
        }
        let samples = self.samples.as_mut_slice();
        self.playback
            .render_block(self.clock, self.clock + frames, samples)?;
        self.ready = true;
        Ok(())
    }

    /// Gives the block that `step` said, once it is ready: its frames, frames × channels, interleaved, in samples of
    /// 24 bits. `out` has room for just these. It takes no memory, and waits for nobody.
    pub fn block(&mut self, out: &mut [i32])
        requires ready { self.old.ready ≡ true }
        requires room { IsSomeAnd self.old.next (λ frames. length out.old ≡ frames * self.old.scene.channels) }
        ensures samples { IfSome self.old.next (λ frames. out.new
            ≡ interleaved (frames_from (clips_heard self.old) self.old.scene self.old.clock frames)) }
        ensures next { IfSome self.old.next (λ frames. self.new ≡ record self.old { clock = self.old.clock + frames; next = None; ready = false }) }
    {
        let Some(frames) = self.next else { return };
        out.copy_from_slice(&self.samples.as_slice()[..out.len()]);
        self.clock += frames;
        self.next = None;
        self.ready = false;
    }
}

impl Playback {
    /// Makes the edits of the frame, and answers the frames of the block that begins there, 0 at the
    /// scene's end.
    fn step(&mut self) -> u32
        requires { IsBefore self.old }
        ensures standing { (samples : List ℤ) → length samples ≡ node_places → IsAtBlock self.new self.old.time result false samples }
        ensures time { self.new.time ≡ self.old.time }
        ensures scene { self.new.scene.value ≡ self.old.scene.value }
        ensures clips { self.new.clips.items ≡ self.old.clips.items }
        ensures tapes { self.new.tapes.items ≡ self.old.tapes.items }
    {
        if self.time == self.length {
            return 0;
        }
        self.edit();
        self.block_end() - self.time
    }
}
