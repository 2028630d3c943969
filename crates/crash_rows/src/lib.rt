//! What a crash leaves of a store on a disk that loses, tears, turns round or spoils what was written since its last sync.
#![tactic(auto)]

#[cfg(test)]
mod contents;
#[cfg(test)]
mod crash_disk;
#[cfg(test)]
mod crashes;
