//! What the devices keep.

use kube_types::objects::DataId;
use kube_types::text::Text;

/// Data that the pool at a place gave; there until they are erased.
pub struct StoredData {
    pub id: DataId,
    pub name: Text,
    pub pool: usize,
    pub bytes: u64,
    pub there: bool,
}

impl Drop for StoredData {
    fn drop(self) {
        let StoredData {
            id,
            name,
            pool: _,
            bytes: _,
            there: _,
        } = self;
        drop(id);
        drop(name);
    }
}
