//! The order in which the items of five senders are taken.
ghost use Rattle.std.specs.Prelude.{◌≡◌, ◌↔◌, ℕ, Ok, Err};
ghost use Rattle.receiver.specs.Order.{IsLawfulOrder, IsOrderFault};

/// Looks for the first fault of an order of the items of five senders, 0 to 4, whose lists have
/// these lengths: a place that names no sender or one whose list is used up, or the order's length
/// if items are left over.
pub fn check_order(lengths: [usize; 5], order: &[u8]) -> Result<(), usize>
    ensures lawful { (result ≡ Ok tt) ↔ IsLawfulOrder lengths order.now }
    ensures fault { (k : ℕ) → (result ≡ Err k) ↔ IsOrderFault lengths order.now k }
{
    let mut left = lengths;
    for (k, sender) in order.iter().enumerate() {
        let sender = usize::from(*sender);
        if sender >= left.len() || left[sender] == 0 {
            return Err(k);
        }
        left[sender] -= 1;
    }
    if left.iter().any(|items| *items > 0) {
        return Err(order.len());
    }
    Ok(())
}
