use library_inventory::Inventory;
use tape_flush::StoreFault;

/// Where the inventory of a library is kept.
pub trait InventoryStore {
    /// Keeps an inventory in place of the one before, whole or not at all.
    fn write(&mut self, inventory: &Inventory) -> Result<(), StoreFault>;
}
