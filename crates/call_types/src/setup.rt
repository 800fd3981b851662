//! What a world begins with.

use kube_types::copies::{OutOfMemory, Plain, copy_option, same_option};
use kube_types::items::Items;
use kube_types::objects::Object;
use kube_types::text::Text;
use std::alloc::Global;

/// A pool of a back end. With a topology, a label and its value, it serves the nodes that have
/// this label.
#[derive(Debug)]
pub struct Pool {
    pub name: Text,
    pub provisioner: Text,
    pub bytes: u64,
    pub topology: Option<(Text, Text)>,
}

impl Drop for Pool {
    fn drop(self) {
        let Pool {
            name,
            provisioner,
            bytes: _,
            topology,
        } = self;
        drop(name);
        drop(provisioner);
        drop(topology);
    }
}

impl Plain for Pool {
    fn copy(&self, alloc: Global) -> Result<Pool, OutOfMemory> {
        Ok(Pool {
            name: self.name.copy(alloc)?,
            provisioner: self.provisioner.copy(alloc)?,
            bytes: self.bytes,
            topology: copy_option(alloc, &self.topology)?,
        })
    }

    fn same(&self, other: &Pool) -> bool {
        self.name.same(&other.name)
            && self.provisioner.same(&other.provisioner)
            && self.bytes == other.bytes
            && same_option(&self.topology, &other.topology)
    }
}

/// What is there before the first call: the pools in their order, the numbers of the Provision and
/// Erase calls that fail, and the objects of an older store, in the order in which they were read.
#[derive(Debug)]
pub struct Setup {
    pub pools: Items<Pool>,
    pub faults: Items<u64>,
    pub imports: Items<Object>,
}

impl Drop for Setup {
    fn drop(self) {
        let Setup {
            pools,
            faults,
            imports,
        } = self;
        drop(pools);
        drop(faults);
        drop(imports);
    }
}

impl Plain for Setup {
    fn copy(&self, alloc: Global) -> Result<Setup, OutOfMemory> {
        Ok(Setup {
            pools: self.pools.copy(alloc)?,
            faults: self.faults.copy(alloc)?,
            imports: self.imports.copy(alloc)?,
        })
    }

    fn same(&self, other: &Setup) -> bool {
        self.pools.same(&other.pools)
            && self.faults.same(&other.faults)
            && self.imports.same(&other.imports)
    }
}
