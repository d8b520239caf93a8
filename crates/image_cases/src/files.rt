//! Bytes under names.

use std::alloc::{AllocError, Global};

#[derive(Drop)]
struct Named {
    name: String,
    bytes: Vec<u8>,
}

/// Bytes under names, of which the first of a name counts.
#[derive(Drop)]
pub struct Files {
    all: Vec<Named>,
}

impl Files {
    pub fn new(alloc: Global) -> Files {
        Files {
            all: Vec::new(alloc),
        }
    }

    pub fn add(&mut self, alloc: Global, name: &str, bytes: Vec<u8>) -> Result<(), AllocError> {
        let name = String::from_str(alloc, name)?;
        self.all.push(Named { name, bytes })?;
        Ok(())
    }

    /// The bytes of a name, or none.
    pub fn bytes(&self, name: &str) -> &[u8] {
        for named in &self.all {
            if named.name.as_str() == name {
                return &named.bytes;
            }
        }
        &[]
    }
}
