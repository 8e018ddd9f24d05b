#![tactic(auto)]

// Tests that run; the layers below hold no tests, so that they are proved once.
#[cfg(test)]
mod calls_refuse;
#[cfg(test)]
mod families_hold;
#[cfg(test)]
mod kinds_pile_up;
