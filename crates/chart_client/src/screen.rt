ghost use Rattle.std.specs.Prelude.{◌≡◌, [], IfOk, IfErr};
ghost use Rattle.chart_client.specs.declared.errors.ClientError.TheVariants as client;
ghost use Rattle.chart_client.specs.Showing.{Spells, IsSpelling};

use crate::client::Client;
use crate::errors::ClientError;
use crate::show::{Show, Shown};
use chart_frames::{Decoder, Frame, FrameFault};
use std::alloc::{AllocError, Global};
use std::marker::Model;

/// Shows the frames of a stream as a client does: it reads each frame's bytes and draws its picture.
#[derive(Drop)]
pub struct Screen {
    alloc: Global,
    client: Client,
}

impl Model for Screen {
    ghost use Rattle.std.specs.Prelude.{List};
    ghost use Rattle.chart_client.specs.declared.holding.Holding.{Holding};

    ghost Value = { List Holding };

    ghost view = { λ s. s.client };
}

impl Screen {
    /// A screen before any frame.
    pub fn new(alloc: Global) -> Result<Screen, AllocError>
        ensures { IfOk result (λ screen. screen ≡ []) }
    {
        let client = Client::new(alloc)?;
        Ok(Screen { alloc, client })
    }
}

impl Show for Screen {
    ghost use Rattle.chart_client.specs.Showing.{ScreenGives};

    ghost gives = { λ old bytes answer new. ScreenGives old bytes answer new };

    fn show(&mut self, bytes: &[u8]) -> Result<Shown, ClientError> {
        let frame = read(self.alloc, bytes)?;
        let bitmap = self.client.accept(&frame)?;
        Ok(Shown { frame, bitmap })
    }
}

// The frame that bytes spell.
fn read(alloc: Global, bytes: &[u8]) -> Result<Frame, ClientError>
    requires { IsSpelling bytes.now }
    ensures frame { IfOk result (Spells bytes.now) }
    ensures failed { IfErr result (λ e. e ≡ client.NoMemory) }
{
    let mut decoder = Decoder::new(alloc);
    let Ok(()) = decoder.feed(bytes) else {
        return Err(ClientError::NoMemory);
    };
    match decoder.next() {
        Ok(Some(frame)) => Ok(frame),
        Err(FrameFault::NoMemory) => Err(ClientError::NoMemory),
        Ok(None) => unreachable!(),
        Err(FrameFault::BadFrame { .. }) => unreachable!(),
    }
}
