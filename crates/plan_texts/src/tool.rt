//! The device tools that the programs read lines of.

ghost use Rattle.std.specs.Prelude.{◌≡◌};
ghost use Rattle.plan_texts.specs.Tools as spec;

/// A tool whose lines can be read.
#[derive(Clone, Copy, Debug, PartialEq)]
pub enum Tool {
    /// cicc, which makes PTX.
    Cicc,
    /// ptxas, which makes a cubin.
    Ptxas,
    /// cudafe++, which makes host code.
    CudaFe,
}

impl Tool {
    /// The tool of a program's name: `cicc`, `ptxas` or `cudafe++`.
    pub fn named(name: &str) -> Option<Tool>
        ensures { result ≡ spec.tool_of_name name.now }
    {
        match name {
            "cicc" => Some(Tool::Cicc),
            "ptxas" => Some(Tool::Ptxas),
            "cudafe++" => Some(Tool::CudaFe),
            _ => None,
        }
    }
}
