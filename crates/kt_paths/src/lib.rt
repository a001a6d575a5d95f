//! The written rules along the paths of bodies, and the limits on their graphs. The definitions stand in specs/; below are the trees and the other written
//! rules, above the pass that follows the paths and the laws of soundness. It has no call.
#![tactic(auto)]
