//! What a seat asks in one call.

use crate::request::{Request, SeatKind};

/// A request, and the kind of the seat that makes it.
pub struct Ask {
    pub kind: SeatKind,
    pub request: Request,
}

impl Drop for Ask {
    fn drop(self) {
        let Ask { kind: _, request } = self;
        drop(request);
    }
}
