// The stores that a mount may give, and the store in memory as one.
use crate::fault::{LoadFault, PrepareFault};
use crate::log_store::LogStore;
use crate::prepared::Prepared;
use crate::store::Store;
use base_types::{Failed, List, Octets};
use board_core::Board;
use device_config::Config;
use device_state::{Change, RowHead};
use std::alloc::Global;

impl Store for LogStore {
    ghost use Rattle.component_store.specs.StoreLaws.{log_stands};
    ghost use Rattle.component_store.specs.Preparing.{IsReady};
    ghost use Rattle.device_image.specs.Held.{state_of};
    ghost use Rattle.component_store.specs.Keeping.{Keeps};

    ghost state = { λ log. state_of log.held };

    ghost extent = { λ log. log.size };

    ghost keeps = { Keeps };

    ghost ready = { IsReady };

    ghost stands = { log_stands };

    fn config(&self) -> &Config {
        &self.held.config
    }

    fn leaf(&self) -> u64 {
        self.held.leaf
    }

    fn weight(&self) -> u64 {
        self.weight
    }

    fn rows(&self) -> &List<RowHead> {
        &self.heads
    }

    fn image<B: Board>(
        &self,
        alloc: Global,
        _board: &mut B,
        id: &[u8],
    ) -> Result<Option<Octets>, LoadFault> {
        Ok(self.image_of(alloc, id)?)
    }

    fn prepare(&mut self, alloc: Global, change: &Change) -> Result<Prepared, PrepareFault> {
        self.make_ready(alloc, change)
    }

    fn commit<B: Board>(&mut self, board: &mut B, prepared: Prepared) -> Result<(), Failed> {
        self.make_durable(board, prepared)
    }
}

/// A store of any layout.
#[derive(Drop)]
pub enum AnyStore {
    /// Of layout 1.
    Log(LogStore),
}

impl Store for AnyStore {
    ghost use Rattle.component_store.specs.StoreLaws.{any_stands};
    ghost use Rattle.component_store.specs.Stores as Stores;

    ghost state = { Stores.state };

    ghost extent = { Stores.extent };

    ghost keeps = { Stores.keeps };

    ghost ready = { Stores.ready };

    ghost stands = { any_stands };

    fn config(&self) -> &Config {
        let AnyStore::Log(log) = self;
        log.config()
    }

    fn leaf(&self) -> u64 {
        let AnyStore::Log(log) = self;
        log.leaf()
    }

    fn weight(&self) -> u64 {
        let AnyStore::Log(log) = self;
        log.weight()
    }

    fn rows(&self) -> &List<RowHead> {
        let AnyStore::Log(log) = self;
        log.rows()
    }

    fn image<B: Board>(
        &self,
        alloc: Global,
        board: &mut B,
        id: &[u8],
    ) -> Result<Option<Octets>, LoadFault> {
        let AnyStore::Log(log) = self;
        log.image(alloc, board, id)
    }

    fn prepare(&mut self, alloc: Global, change: &Change) -> Result<Prepared, PrepareFault> {
        let AnyStore::Log(log) = self;
        log.prepare(alloc, change)
    }

    fn commit<B: Board>(&mut self, board: &mut B, prepared: Prepared) -> Result<(), Failed> {
        let AnyStore::Log(log) = self;
        log.commit(board, prepared)
    }
}
