//! Kinds of commands, and what they usually weigh.

ghost use Rattle.std.specs.Prelude.{◌≡◌};
ghost use Rattle.schedules.specs.Kinds as spec;

/// What a command does, as far as its time depends on that.
#[derive(Clone, Copy, Debug)]
pub enum CommandKind {
    /// A host compiler that only preprocesses.
    Preprocess,
    /// cudafe++.
    CudaFe,
    /// cicc.
    Cicc,
    /// ptxas.
    Ptxas,
    /// A host compiler that compiles.
    HostCompile,
    /// Any other command, as fatbinary and nvlink.
    Other,
}

/// How long a command of this kind took for a small source, in hundredths of a second of processor time: a weight for
/// [`chain_weights`](crate::chain_weights) if you know no better one. With many headers all take 10 to 20 times as long.
///
/// The weight goes by kind and not by size. For each MB of five preprocessed sources of 1.3 to 11 MB, nvcc 13.0's cudafe++ took 0.36 to
/// 0.46 s, but cicc 0.29, 0.37, 0.44, 0.36 and, for 150 kernels of 50 kB in all, 4.5 s. Nobody knows that size when a plan is made.
pub fn usual_weight(kind: CommandKind) -> usize
    ensures { result ≡ spec.usual_weight kind }
{
    match kind {
        CommandKind::Preprocess => 11,
        CommandKind::CudaFe => 41,
        CommandKind::Cicc => 33,
        CommandKind::Ptxas => 2,
        CommandKind::HostCompile => 38,
        CommandKind::Other => 1,
    }
}
