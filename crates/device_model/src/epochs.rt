//! Epochs of nodes.

ghost use Rattle.std.specs.Prelude.{◌≡◌};
ghost use Rattle.binder_model.specs.Devices.{epoch_of};

use kube_types::text::Text;

/// The last epoch of the node, 0 before the first.
pub fn epoch_of(epochs: &[(Text, u64)], node: &Text) -> u64
    ensures { result ≡ epoch_of node.now epochs.now }
{
    for epoch in epochs {
        if epoch.0.is(node.as_str()) {
            return epoch.1;
        }
    }
    0
}
