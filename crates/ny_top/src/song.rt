ghost use Rattle.std.specs.Prelude.{◌≡◌, length, IfOk};
ghost use Rattle.ny_top.specs.Frames.{HasRoom};
ghost use Rattle.ny_top.specs.Outcome.{create_line};
ghost use Rattle.ny_top.specs.Playing.{IsNew};
ghost use Rattle.ny_words.specs.Views.{render_view, task_view};
ghost use Rattle.ny_words.specs.Commands.{IsInRange};
ghost use Rattle.ny_words.specs.declared.command.Task.TheVariants.{Render as Plays};

use crate::ends::{OutputLines, output_lines};
use crate::frames::{Buffers, make_buffers};
use ny_check::Program;
use ny_pull::Engine;
use ny_words::Render;
use std::alloc::{AllocError, Global};

/// What is played: an engine that was just opened, the buffers of its rounds, and the lines that may end the run.
#[derive(Drop)]
pub(crate) struct Song {
    pub(crate) engine: Engine,
    pub(crate) buffers: Buffers,
    pub(crate) lines: OutputLines,
}

/// An engine for a program, with what is asked for.
fn open_engine(alloc: Global, render: Render, program: Program) -> Result<Engine, AllocError>
    requires asked { IsInRange (task_view (Plays render)) }
    ensures piece { IfOk result (λ e. e.code ≡ program) }
    ensures new { IfOk result (λ e. IsNew (render_view render.entry) e) }
{
    Ok(Engine::open(alloc, program, render.pool, render.block, render.rate)?)
}

/// What plays a program.
pub(crate) fn open_song(alloc: Global, render: Render, program: Program) -> Result<Song, AllocError>
    requires asked { IsInRange (task_view (Plays render)) }
    ensures piece { IfOk result (λ s. s.engine.code ≡ program) }
    ensures new { IfOk result (λ s. IsNew (render_view render.entry) s.engine) }
    ensures room { IfOk result (λ s. HasRoom (length s.engine.channels) render.entry.block s.buffers) }
    ensures line { IfOk result (λ s. s.lines.create.items ≡ create_line render.entry.output.now) }
{
    let engine = open_engine(alloc, render, program)?;
    let buffers = make_buffers(alloc, engine.channels(), render.block)?;
    let lines = output_lines(alloc, render.output)?;
    Ok(Song {
        engine,
        buffers,
        lines,
    })
}
