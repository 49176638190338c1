//! Engines by hand.

mod broken;
mod cases;
mod even;
mod locks;
