// What the driver does with the three processes, step by step.
use crate::children::Children;
use crate::steps::Scene;

/// Starts the processes and goes through the steps. The answer is 0 where each step was done.
pub fn drive(rt: &HostRuntime) -> u8 {
    let mut children = Children::new();
    let done = match Scene::set(rt) {
        Ok(scene) => scene.play(rt, &mut children).unwrap_or(false),
        Err(_) => false,
    };
    children.end();
    if done { 0 } else { 1 }
}
