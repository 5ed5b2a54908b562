// Amounts in reais, with a decimal comma.
use detraf::amounts::Amounts;

// Cents as reais.
fn print_reais(rt: &HostRuntime, cents: u64) -> anyhow::Result<()> {
    let reais = cents / 100;
    let rest = cents % 100;
    print!(rt; "  {reais:>14},{rest:02}")?;
    Ok(())
}

// Millionths of a real as reais.
pub fn print_rate(rt: &HostRuntime, millionths: u32) -> anyhow::Result<()> {
    let reais = millionths / 1_000_000;
    let rest = millionths % 1_000_000;
    print!(rt; "{reais},{rest:06}")?;
    Ok(())
}

pub fn print_amounts(rt: &HostRuntime, amounts: Amounts) -> anyhow::Result<()> {
    for cents in [amounts.net, amounts.pis, amounts.icms, amounts.gross] {
        print_reais(rt, cents)?;
    }
    println!(rt)?;
    Ok(())
}
